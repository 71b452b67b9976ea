//! HEADERS of a message.
ghost use Rattle.std.specs.Prelude.{◌≡◌, ℕ, Bool, List, true, Ok, OnOk, OnErr, IfErr, MatchResult, length};
ghost use Rattle.wtp_sending.specs.Encoded.{SendsHeadAs, SendsTrailersAs};
ghost use Rattle.vesgrauf_stream.specs.declared.writing.half.Half.TheVariants as half;
ghost use Rattle.vesgrauf_stream.specs.Errors.{sending};
ghost use Rattle.vesgrauf_stream.specs.Headers.{request_at, response_at, keeps_sections, RefusesAsHead, RefusesAsTrailers, SendsFrame, RefusesFrame, SendsHeaders, RefusesHeaders, SendsTrailers, RefusesTrailers};
ghost use Rattle.vesgrauf_stream.specs.Writing.{is_open, ends_if, IsQueued, RefusesBy};

use crate::error::NotSent;
use crate::tools::Tools;
use crate::writing::Writing;
use crate::writing::half::Half;
use vesgrauf_queue::spares::Spares;
use wtp_core::ids::SessionId;
use wtp_fields::fields::FieldList;
use wtp_sending::error::SendError;
use wtp_sending::message::Sending;
use wtp_sending::peer::Peer;

impl Writing {
    /// Queues HEADERS of a request, at a client, on a half on which no message began. `fin`: the stream ends after
    /// them. Instructions for the encoder stream are appended to those of the tools; they are to be sent, whatever
    /// the call returns.
    ///
    /// # Errors
    ///
    /// Nothing is queued, and nothing changes but the encoder's table and its instructions. Of several reasons the
    /// first is returned: [`NotSent::None`] if there is no own half; [`NotSent::Over`] if it was finished or reset;
    /// [`NotSent::Send`] with [`SendError::Unexpected`] if a message began, with the error of
    /// [`Sending::headers_with`], or of [`Sending::finish`] for the end; [`NotSent::TooLong`]; and
    /// [`SendError::Memory`].
    pub fn request(
        &mut self,
        tools: &mut Tools,
        id: SessionId,
        peer: Peer,
        list: &FieldList,
        fin: bool,
    ) -> Result<(), NotSent>
        ensures ok { OnOk result (SendsHeaders (request_at self.old id peer) list.now fin tools.old tools.new
            self.old self.new) }
        ensures err { IfErr result (λ e. RefusesHeaders (request_at self.old id peer) list.now fin tools.old
            tools.new self.old e) }
        ensures kept { OnErr result (self.new ≡ self.old) }
    {
        let message = self.request_message(id, peer)?;
        self.put_headers(tools, message, list, fin)
    }

    // Returns the message of a request, of which nothing was sent.
    fn request_message(&self, id: SessionId, peer: Peer) -> Result<Sending, NotSent>
        ensures { result ≡ request_at self.now id peer }
    {
        if let Half::None = self.half {
            return Err(NotSent::None);
        }
        if self.is_ended() {
            return Err(NotSent::Over);
        }
        match self.half {
            Half::Idle => Ok(Sending::request(id, peer)),
            _ => Err(NotSent::Send(SendError::Unexpected)),
        }
    }

    /// Queues HEADERS of a response, interim or final, at a server, as [`request`](Self::request) does.
    ///
    /// # Errors
    ///
    /// As of [`request`](Self::request); [`NotSent::None`] also if no request came.
    pub fn respond(
        &mut self,
        tools: &mut Tools,
        id: SessionId,
        peer: Peer,
        list: &FieldList,
        fin: bool,
    ) -> Result<(), NotSent>
        ensures ok { OnOk result (SendsHeaders (response_at self.old id peer) list.now fin tools.old tools.new
            self.old self.new) }
        ensures err { IfErr result (λ e. RefusesHeaders (response_at self.old id peer) list.now fin tools.old
            tools.new self.old e) }
        ensures kept { OnErr result (self.new ≡ self.old) }
    {
        let message = self.response_message(id, peer)?;
        self.put_headers(tools, message, list, fin)
    }

    // Returns the message of a response.
    fn response_message(&self, id: SessionId, peer: Peer) -> Result<Sending, NotSent>
        ensures { result ≡ response_at self.now id peer }
    {
        self.check()?;
        match self.half {
            Half::Asked(asked) => Ok(Sending::response(id, asked, peer)),
            _ => self.half.message(),
        }
    }

    // Queues HEADERS of a message, and maybe the end.
    fn put_headers(
        &mut self,
        tools: &mut Tools,
        message: Sending,
        list: &FieldList,
        fin: bool,
    ) -> Result<(), NotSent>
        ensures ok { OnOk result (SendsFrame SendsHeadAs message list.now fin tools.old tools.new
            self.old self.new) }
        ensures err { IfErr result (λ e. RefusesFrame SendsHeadAs (RefusesAsHead list.now tools.old tools.new)
            message list.now fin tools.old tools.new self.old e) }
        ensures kept { OnErr result (self.new ≡ self.old) }
    {
        let mut next = message;
        let count = tools.encoder.unacknowledged();
        tools.write_headers(&mut next, list)?;
        self.put_written(tools, count, &next, fin)
    }

    /// Queues trailers, and the end, as [`request`](Self::request) queues HEADERS.
    ///
    /// # Errors
    ///
    /// Nothing is queued, and nothing changes but the encoder's table and its instructions. Of several reasons the
    /// first is returned: [`NotSent::None`] if there is no own half, or no request came; [`NotSent::Over`] if it was
    /// finished or reset; [`NotSent::Send`] with [`SendError::Unexpected`] if there is no message, or with the error
    /// of [`Sending::trailers_with`]; [`NotSent::TooLong`]; and [`SendError::Memory`].
    pub fn trailers(&mut self, tools: &mut Tools, list: &FieldList) -> Result<(), NotSent>
        ensures ok { OnOk result (SendsTrailers list.now tools.old tools.new self.old self.new) }
        ensures err { IfErr result (λ e. RefusesTrailers list.now tools.old tools.new self.old e) }
        ensures kept { OnErr result (self.new ≡ self.old) }
    {
        let message = self.message()?;
        self.put_trailers(tools, message, list)
    }

    // Queues trailers of a message, and the end.
    fn put_trailers(
        &mut self,
        tools: &mut Tools,
        message: Sending,
        list: &FieldList,
    ) -> Result<(), NotSent>
        ensures ok { OnOk result (SendsFrame SendsTrailersAs message list.now true tools.old tools.new
            self.old self.new) }
        ensures err { IfErr result (λ e. RefusesFrame SendsTrailersAs
            (RefusesAsTrailers list.now tools.old tools.new) message list.now true tools.old tools.new self.old e) }
        ensures kept { OnErr result (self.new ≡ self.old) }
    {
        let mut next = message;
        let count = tools.encoder.unacknowledged();
        tools.write_trailers(&mut next, list)?;
        self.put_written(tools, count, &next, true)
    }

    // Queues the frame that was written, after which the message is this, and maybe the end. If it is not queued,
    // only the first `count` sections stay.
    fn put_written(
        &mut self,
        tools: &mut Tools,
        count: usize,
        message: &Sending,
        fin: bool,
    ) -> Result<(), NotSent>
        ensures ok { OnOk result ((last : Sending) × (room : Bool) × (ends_if fin message.now ≡ Ok last)
            × (self.new.half ≡ half.Message last)
            × IsQueued tools.old.scratch.items room fin self.old self.new
            × (tools.new.encoder ≡ tools.old.encoder)) }
        ensures err { IfErr result (λ e. RefusesBy (sending (ends_if fin message.now)) self.old
            (length tools.old.scratch.items) e
            × (tools.new.encoder ≡ keeps_sections count tools.old.encoder)) }
        ensures kept { OnErr result (self.new ≡ self.old) }
        ensures instructions { tools.new.instructions.items ≡ tools.old.instructions.items }
    {
        match self.put_frame(&mut tools.spares, message, tools.scratch.as_slice(), fin) {
            Ok(()) => Ok(()),
            Err(error) => {
                tools.encoder.take_back(count);
                Err(error)
            }
        }
    }

    // Queues a frame, after which the message is this, and maybe the end.
    fn put_frame(
        &mut self,
        spares: &mut Spares,
        message: &Sending,
        frame: &[u8],
        fin: bool,
    ) -> Result<(), NotSent>
        ensures ok { OnOk result ((last : Sending) × (room : Bool) × (ends_if fin message.now ≡ Ok last)
            × (self.new.half ≡ half.Message last) × IsQueued frame.now room fin self.old self.new) }
        ensures err { IfErr result (λ e. RefusesBy (sending (ends_if fin message.now)) self.old
            (length frame.now) e) }
        ensures kept { OnErr result (self.new ≡ self.old) }
    {
        let mut last = *message;
        if fin {
            last.finish()?;
        }
        let _room = self.queue.push(spares, &[], frame)?;
        self.take(Half::Message(last), fin);
        Ok(())
    }
}
