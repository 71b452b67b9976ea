//! Shows what bytes contain.
ghost use Rattle.std.specs.Io.KnownBytes.{Appends, Keeps};
ghost use Rattle.std.specs.List.{list_any};
ghost use Rattle.std.specs.Prelude.{◌≡◌, ◌<◌, ◌^◌, ◌&&◌, ◌||◌, ◌⊎◌, ◌++◌, ℕ, List, Err, IfErr, IfOk};
ghost use Rattle.std.specs.Prelude.{if◌then◌else◌, option_map};
ghost use Rattle.wt_inspect.specs.Drawing.{Draws, has_colors};
ghost use Rattle.wt_inspect.specs.Sheets.{HasSheet, WritesAll, WritesSome};
ghost use Rattle.wt_inspect.specs.Shown.{FailsWith, Shows, ShowsWith, StopsShowing, shown_input};
ghost use Rattle.wt_inspect.specs.Showings.{HasShown, ShowsItem, ShowsNext};
ghost use Rattle.wt_inspection.specs.Items.{IsDone, input_of};
ghost use Rattle.wt_inspect.specs.Statuses.{is_breach};
ghost use Rattle.wt_inspect.specs.declared.failure.Failure.TheVariants.{Encoder};
ghost use Rattle.wt_inspection.specs.Results.{has_fault};
ghost use Rattle.wtp_dynamic.specs.declared.error.EncoderStreamError.{EncoderStreamError};

use crate::arguments::{Arguments, Output};
use crate::failure::Failure;
use crate::files::shown_name;
use crate::sheet::Sheet;
use std::alloc::{AllocError, Global};
use std::io::{self, ErrorKind, Write};
use wt_inspection::item::Warning;
use wt_inspection::{End, Insertions, Inspecting, Item, inspect_with, instructions_in};
use wt_inspection_views::html::write_html;

/// How many bytes of lines are written at once, at least, but for the last ones.
const PIECE_LEN: usize = 65_536;

/// Writes what these bytes contain, with the bytes of an encoder stream if there are some. Returns
/// the exit status.
///
/// # Errors
///
/// Returns [`Failure::Encoder`] if the encoder stream has a fault, before anything is written,
/// [`Failure::Output`] or [`Failure::Closed`] if writing fails, and [`Failure::Memory`] if
/// allocation fails.
pub fn show<W: Write>(
    alloc: Global,
    arguments: &Arguments<'_>,
    encoder: Option<&[u8]>,
    bytes: &[u8],
    output: &mut W,
) -> Result<u8, Failure>
    requires { arguments.now.capacity < 2 ^ 60 }
    ensures shows { IfOk result (λ status. (text : List ℕ)
        × Draws (has_colors arguments.now) (W.contents output.old) (W.contents output.new) text
        × ShowsWith (option_map (λ xs. xs.now) encoder.entry) arguments.now bytes.now text
        status) }
    ensures statuses { IfOk result (λ status. (status ≡ 0) ⊎ (status ≡ 2)) }
    ensures fails { IfErr result (λ e. FailsWith (option_map (λ xs. xs.now) encoder.entry)
        arguments.now.capacity e) }
    ensures quiet { (fault : EncoderStreamError) → result ≡ Err (Encoder fault)
        → output.new ≡ output.old }
{
    match encoder {
        None => show_with(alloc, arguments, None, bytes, output),
        Some(encoder) => {
            let sent = Insertions::read(alloc, arguments.capacity, instructions_in(encoder))?;
            show_with(alloc, arguments, Some(&sent), bytes, output)
        }
    }
}

/// Writes what these bytes contain. Returns the exit status.
fn show_with<W: Write>(
    alloc: Global,
    arguments: &Arguments<'_>,
    sent: Option<&Insertions<'_>>,
    bytes: &[u8],
    output: &mut W,
) -> Result<u8, Failure>
    ensures shows { IfOk result (λ status. (text : List ℕ)
        × Draws (has_colors arguments.now) (W.contents output.old) (W.contents output.new) text
        × Shows (shown_input (option_map (λ i. i.now) sent.entry) arguments.now bytes.now)
        arguments.now text status) }
    ensures statuses { IfOk result (λ status. (status ≡ 0) ⊎ (status ≡ 2)) }
    ensures fails { IfErr result StopsShowing }
{
    match arguments.output {
        Output::Text => show_lines(alloc, arguments, sent, bytes, Sheet::text(alloc), output),
        Output::Json => show_lines(alloc, arguments, sent, bytes, Sheet::json(alloc), output),
        Output::Html => show_page(alloc, arguments, sent, bytes, output),
    }
}

/// Writes the items of these bytes as a page. Returns the exit status.
fn show_page<W: Write>(
    alloc: Global,
    arguments: &Arguments<'_>,
    sent: Option<&Insertions<'_>>,
    bytes: &[u8],
    output: &mut W,
) -> Result<u8, Failure>
    requires { arguments.now.output ≡ Output.Html }
    ensures shows { IfOk result (λ status. (text : List ℕ)
        × Draws (has_colors arguments.now) (W.contents output.old) (W.contents output.new) text
        × Shows (shown_input (option_map (λ i. i.now) sent.entry) arguments.now bytes.now)
        arguments.now text status) }
    ensures statuses { IfOk result (λ status. (status ≡ 0) ⊎ (status ≡ 2)) }
    ensures fails { IfErr result StopsShowing }
{
    let inspection = inspect_with(alloc, arguments.recorded, bytes, arguments.is_open, sent)?;
    let title = title_of(alloc, arguments)?;
    let page = write_html(alloc, title.as_str(), &inspection, bytes)?;
    write(output, page.as_slice())?;
    flush(output)?;
    let is_breached = is_breached_by(false, inspection.warnings.as_slice());
    Ok(status_of(arguments.is_strict, inspection.end, is_breached))
}

/// Writes the items of these bytes as lines, which are added to an empty sheet. Returns the exit
/// status.
pub(crate) fn show_lines<W: Write>(
    alloc: Global,
    arguments: &Arguments<'_>,
    sent: Option<&Insertions<'_>>,
    bytes: &[u8],
    sheet: Sheet,
    output: &mut W,
) -> Result<u8, Failure>
    requires { HasSheet arguments.now.output 0 sheet }
    ensures shows { IfOk result (λ status. (text : List ℕ)
        × Draws (has_colors arguments.now) (W.contents output.old) (W.contents output.new) text
        × Shows (shown_input (option_map (λ i. i.now) sent.entry) arguments.now bytes.now)
        arguments.now text status) }
    ensures statuses { IfOk result (λ status. (status ≡ 0) ⊎ (status ≡ 2)) }
    ensures fails { IfErr result StopsShowing }
{
    let mut showing = Showing {
        arguments,
        bytes,
        items: Inspecting::new(alloc, arguments.recorded, bytes, arguments.is_open, sent),
        sheet,
        is_breached: false,
    };
    'items: loop {
        let is_item = showing.show_next(output)?;
        if !is_item {
            return showing.finish(output);
        }
    }
}

/// Items that are shown one after the other.
#[derive(Drop)]
struct Showing<'a> {
    arguments: &'a Arguments<'a>,
    bytes: &'a [u8],
    items: Inspecting<'a>,
    sheet: Sheet,
    is_breached: bool,
}

impl Showing<'_> {
    /// Adds the lines of the next item and of the warnings about it, and writes all lines if they
    /// are long. Returns whether there was an item.
    fn show_next<W: Write>(&mut self, output: &mut W) -> Result<bool, Failure>
        ensures shows { IfOk result (λ is_item. ShowsNext is_item (W.contents output.old)
            (W.contents output.new) self.old self.new) }
        ensures fails { IfErr result StopsShowing }
    {
        let next = self.items.next()?;
        match next {
            Some(item) => {
                self.show_item(&item, output)?;
                Ok(true)
            }
            None => Ok(false),
        }
    }

    /// Adds the lines of an item and of the warnings about it, and writes all lines if they are
    /// long.
    fn show_item<W: Write>(&mut self, item: &Item, output: &mut W) -> Result<(), Failure>
        ensures shows { IfOk result (λ _. ShowsItem item.now (W.contents output.old)
            (W.contents output.new) self.old self.new) }
        ensures fails { IfErr result StopsShowing }
    {
        let warnings = self.items.take_warnings();
        self.is_breached = is_breached_by(self.is_breached, warnings.as_slice());
        let payload = self.arguments.has_payload;
        self.sheet
            .add_item(item, self.bytes, payload, warnings.as_slice());
        write_piece(&mut self.sheet, self.arguments.has_colors, output)
    }

    /// Adds the lines of the last warnings and of the end, and writes all lines. Returns the exit
    /// status. Requires that there is no item left.
    fn finish<W: Write>(self, output: &mut W) -> Result<u8, Failure>
        requires { IsDone self.items }
        ensures shows { IfOk result (λ status. (text : List ℕ) → HasShown text self.entry
            → (more : List ℕ) × Draws (has_colors self.entry.arguments.now)
            (W.contents output.old) (W.contents output.new) more
            × Shows (input_of self.entry.items) self.entry.arguments.now (text ++ more) status) }
        ensures statuses { IfOk result (λ status. (status ≡ 0) ⊎ (status ≡ 2)) }
        ensures fails { IfErr result StopsShowing }
    {
        let mut sheet = self.sheet;
        let (end, warnings) = self.items.finish()?;
        let is_breached = is_breached_by(self.is_breached, warnings.as_slice());
        sheet.add_warnings(warnings.as_slice());
        sheet.add_end(end, self.bytes.len());
        write_all_of(&mut sheet, self.arguments.has_colors, output)?;
        flush(output)?;
        Ok(status_of(self.arguments.is_strict, end, is_breached))
    }
}

/// Writes the lines of a sheet if they are long, those of text with their colours if `colors` is
/// set, and leaves none then.
fn write_piece<W: Write>(sheet: &mut Sheet, colors: bool, output: &mut W) -> Result<(), Failure>
    ensures writes { IfOk result (λ _. WritesSome «colors» (W.contents output.old)
        (W.contents output.new) sheet.old sheet.new) }
    ensures fails { IfErr result StopsShowing }
{
    if sheet.len() < PIECE_LEN {
        return Ok(());
    }
    write_all_of(sheet, colors, output)
}

/// Writes all lines of a sheet, those of text with their colours if `colors` is set, and leaves
/// none.
pub(crate) fn write_all_of<W: Write>(
    sheet: &mut Sheet,
    colors: bool,
    output: &mut W,
) -> Result<(), Failure>
    ensures some { IfOk result (λ _. WritesSome «colors» (W.contents output.old)
        (W.contents output.new) sheet.old sheet.new) }
    ensures all { IfOk result (λ _. WritesAll «colors» (W.contents output.old)
        (W.contents output.new) sheet.old) }
    ensures fails { IfErr result StopsShowing }
{
    let text = sheet.take(colors)?;
    write(output, text.as_slice())
}

/// Writes bytes.
pub(crate) fn write<W: Write>(output: &mut W, text: &[u8]) -> Result<(), Failure>
    ensures writes { IfOk result (λ _. Appends (W.contents output.old) (W.contents output.new)
        text.now) }
    ensures fails { IfErr result StopsShowing }
{
    match output.write_all(text) {
        Ok(()) => Ok(()),
        Err(error) => Err(output_failure(&error)),
    }
}

/// Makes sure that all bytes are written.
pub(crate) fn flush<W: Write>(output: &mut W) -> Result<(), Failure>
    ensures writes { Keeps (W.contents output.old) (W.contents output.new) }
    ensures fails { IfErr result StopsShowing }
{
    match output.flush() {
        Ok(()) => Ok(()),
        Err(error) => Err(output_failure(&error)),
    }
}

/// Returns why writing failed: nobody reads the output, as when a pager ends early, or another
/// reason.
fn output_failure(error: &io::Error) -> Failure
    ensures { StopsShowing result }
{
    match error.kind() {
        ErrorKind::BrokenPipe => Failure::Closed,
        _ => Failure::Output,
    }
}

/// Returns the kind and the name of the input.
pub(crate) fn title_of(alloc: Global, arguments: &Arguments<'_>) -> Result<String, AllocError> {
    let kind = arguments.kind;
    match arguments.file {
        None | Some("-") => String::from_str(alloc, kind),
        Some(path) => {
            let name = shown_name(alloc, path)?;
            format!(in alloc; "{kind} {name}")
        }
    }
}

/// Returns the exit status of an input that ends so: 2 for a fault, or for a rule that is broken if
/// `is_strict`, and otherwise 0.
pub(crate) fn status_of(is_strict: bool, end: End, is_breached: bool) -> u8
    ensures status { result
        ≡ (if has_fault end || («is_strict» && «is_breached») then 2 else 0) }
    ensures statuses { (result ≡ 0) ⊎ (result ≡ 2) }
{
    if has_fault(end) || (is_strict && is_breached) {
        2
    } else {
        0
    }
}

/// Returns whether the input has a fault.
fn has_fault(end: End) -> bool
    ensures { result ≡ has_fault end }
{
    match end {
        End::Fault(_) => true,
        End::Complete | End::Cut(_) => false,
    }
}

/// Returns whether a rule was broken before, or is by these warnings.
fn is_breached_by(before: bool, warnings: &[Warning]) -> bool
    ensures { result ≡ («before» || list_any is_breach warnings.now) }
{
    before || has_breach(warnings)
}

/// Returns whether a rule is broken.
pub(crate) fn has_breach(warnings: &[Warning]) -> bool
    ensures { result ≡ list_any is_breach warnings.now }
{
    warnings.iter().any(|warning| is_breach(warning))
}

/// Returns whether a warning is one, and no hint.
fn is_breach(warning: &Warning) -> bool
    ensures { result ≡ is_breach warning.now }
{
    !warning.rule.is_hint()
}
