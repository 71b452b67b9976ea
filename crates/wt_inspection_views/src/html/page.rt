//! A page of HTML.
ghost use Rattle.std.specs.Prelude.{◌≡◌, ℕ, List, [], ◌∷◌, ◌++◌, IfOk, IsTrue, MatchOption, OnErr};
ghost use Rattle.wt_inspection_views.specs.Html.{AddsEntries, Entry, HasEntries, IsFragment, IsPageOf};
ghost use Rattle.wt_inspection_views.specs.Html.{KeepsEntries, entry_of, html_byte, html_text};
ghost use Rattle.wt_inspection_views.specs.Html.{markup_bytes};

use crate::latch::Latch;
use std::alloc::{AllocError, Global};
use std::marker::Model;

/// The page up to its title, which `tools/html-page` makes.
pub(super) const HEAD: &str =
    "<!doctype html><html lang=\"en\"><head><meta charset=\"utf-8\"><meta http-equiv=\"Content-Sec\
    urity-Policy\" content=\"default-src 'none'; style-src 'unsafe-inline'; script-src 'sha256-1Cl\
    9EBWx7w4TdqntkYkriFPPhHwuasbmB4+3oDV0ypg='\"><meta name=\"viewport\" content=\"width=device-wi\
    dth\"><title>wt_inspect</title><style>:root{color-scheme:light dark;font:14px/1.4 ui-monospace\
    ,monospace;scroll-padding:2rem}body{margin:1rem}header{display:flex;flex-wrap:wrap;gap:.5rem 2\
    rem;align-items:baseline;margin-bottom:1rem}h1{margin:0;font:inherit;font-weight:bold;overflow\
    -wrap:anywhere}p{margin:0}input,button{font:inherit}header>details[open]{flex-basis:100%}heade\
    r summary{cursor:pointer}body:not(:has(nav)) .others{display:none}[hidden]{display:none !impor\
    tant}main:has(>.bytes){display:grid;grid-template-columns:max-content minmax(0,1fr);gap:2rem;a\
    lign-items:start}pre{margin:0;font:inherit}.bytes{max-height:94vh;overflow:auto;scrollbar-gutt\
    er:stable;position:sticky;top:1rem}.bytes>span{display:block}h2{margin:1.5rem 0 .5rem;border-b\
    ottom:1px solid;font:inherit;font-weight:bold}nav>h2{margin-top:0}nav+nav{margin-top:1.5rem}na\
    v>*{overflow-wrap:anywhere}nav>a{display:block;color:inherit;padding-left:4ch;text-indent:-4ch\
    }nav>.fault,nav>.remark{border-left:3px solid;padding-left:calc(4ch + .5rem)}.remark{color:lig\
    ht-dark(#00695c,#5fd3bc)}nav>.remark{border-left-style:dotted}.ends,.stream,section:has(>.pair\
    ed){display:grid;grid-template-columns:repeat(2,minmax(0,1fr));gap:0 2rem;align-items:start}.e\
    nds{position:sticky;top:0;z-index:1;background:Canvas;border-bottom:1px dotted;margin-bottom:.\
    5rem}.stream{margin-bottom:1rem}.stream:target{outline:2px solid;outline-offset:.25rem}.server\
    {grid-column:2}section:has(>.paired)>*{grid-column:1/-1}section:has(>.paired)>.paired{display:\
    block;grid-column:1;order:1}section:has(>.paired)>.paired:has(>.server){grid-column:2;order:2}\
    section:has(>.paired){margin-bottom:-1rem}section:has(>.paired)::after{content:\"\";grid-colum\
    n:1/-1;order:3}section>.paired.decoder{order:4}section>.paired.decoder:has(>.server){order:5}h\
    3{margin:0;font:inherit;font-style:italic;overflow-wrap:anywhere;padding-left:4ch;text-indent:\
    -4ch}article>.fault{white-space:pre-wrap;overflow-wrap:anywhere}.folded[open]{position:sticky;\
    bottom:0;background:Canvas}.folded>summary{padding-left:calc(.5rem + 3px);cursor:pointer}.fold\
    ed>.bytes{max-height:35vh;padding-left:calc(.5rem + 3px);position:static}i{font-style:normal;c\
    olor:light-dark(#0050a0,#7ab8ff)}.items>*{white-space:pre-wrap;overflow-wrap:anywhere;border-l\
    eft:3px solid transparent;padding-left:.5rem}.items summary,.items span{display:block;padding-\
    left:16ch;text-indent:-16ch}details:has(>summary+span)>summary{cursor:pointer}details:not([ope\
    n]):has(>summary+span)>summary::after{content:\"...\"}.on{background:light-dark(#ffe08a,#5c4a0\
    0)}b{color:light-dark(#8a4b00,#ffb454);font-weight:normal}.fault{color:light-dark(#b00020,#ff7\
    b88);border-color:currentColor;font-weight:bold}@media print{.bytes,.ends{max-height:none;over\
    flow:visible;position:static}}@media(max-width:68rem){main:has(>.bytes),.stream{grid-template-\
    columns:minmax(0,1fr);gap:1rem}.server{grid-column:auto}.ends{display:none}section:has(>.paire\
    d){display:block;margin-bottom:0}main>.items{order:-1}main>.bytes{top:auto;bottom:0;max-height\
    :35vh;border-top:1px solid;background:Canvas}}</style></head><body><header><h1>";

/// The page between its title and what it shows, which `tools/html-page` makes.
pub(super) const MAIN: &str =
    "</h1><p><input type=\"search\" placeholder=\"Search\" aria-label=\"Search\"> <button>Fold</bu\
    tton> <button>Unfold</button></p><details><summary>Legend</summary><p><i>types and lengths</i>\
    , <b>warnings and hints</b>, <span class=\"fault\">faults</span><span class=\"others\">, <span \
    class=\"remark\">other verdicts</span></span></p><p>Pointing at an item marks its bytes, and t\
    he other way round. A click scrolls them into view. A click on the first line of an item folds \
    it.</p></details></header><main>";

/// The page after what it shows, which `tools/html-page` makes. The script marks what has the same
/// number as what is pointed at.
pub(super) const TAIL: &str =
    "</main><script>const find=item=>document.querySelectorAll('[data-item=\"'+item+'\"]');const m\
    ark=(event,on)=>{const target=event.target.closest('[data-item]');if(target)for(const element \
    of find(target.dataset.item))element.classList.toggle('on',on)};for(const name of['mouseover',\
    'focusin'])addEventListener(name,event=>mark(event,true));for(const name of['mouseout','focuso\
    ut'])addEventListener(name,event=>mark(event,false));addEventListener('click',event=>{const ta\
    rget=event.target.closest('[data-item],button');if(!target)return;if(target.localName==='butto\
    n')for(const element of document.querySelectorAll('.items details'))element.open=target.textCo\
    ntent==='Unfold';else for(const element of find(target.dataset.item))if(element.closest('.item\
    s')!==target.closest('.items')){for(const folded of document.querySelectorAll('details'))if(fo\
    lded.contains(element))folded.open=true;element.scrollIntoView({block:'nearest'});return}});ad\
    dEventListener('input',event=>{const words=event.target.value.toLowerCase();for(const element \
    of document.querySelectorAll('.items>div'))element.hidden=!element.textContent.toLowerCase().i\
    ncludes(words);for(const element of document.querySelectorAll('section'))element.hidden=words!\
    ==''&&!element.querySelector('.items>div:not([hidden])')})</script></body></html>\n";

/// Markup of a page. A page has no other: what a peer sent is text.
#[derive(Clone, Copy)]
pub(super) enum Markup {
    /// The page up to its title.
    Head,
    /// Ends the title, and begins what the page shows.
    Main,
    /// Begins the rows of bytes.
    Bytes,
    /// Begins the rows of an item, whose index follows.
    RowsOf,
    /// Begins bytes or a line of a part of an item, whose indices follow.
    PartOf,
    /// Follows an index, or the name of a place.
    TagEnd,
    /// Begins the bytes of a head.
    HeadOf,
    /// Ends the bytes of a head.
    HeadEnd,
    /// Ends rows, bytes or a line.
    SpanEnd,
    /// Ends the rows of bytes, or the line of a fault.
    PreEnd,
    /// Begins the items.
    Items,
    /// Begins the lines of an item, whose index follows.
    ItemOf,
    /// Begins the first line of an item.
    First,
    /// Ends the first line of an item.
    FirstEnd,
    /// Begins another line.
    Line,
    /// Ends the lines of an item, and begins its warnings.
    Warnings,
    /// Ends the warnings of an item.
    ItemEnd,
    /// Begins the line of an end.
    Ending,
    /// Begins the line of a fault, or of an end at one.
    Fault,
    /// Ends the line of an end, and the items.
    ItemsEnd,
    /// Begins the verdicts.
    Verdicts,
    /// Begins a verdict on a fault: a link to the place whose name follows.
    FaultAt,
    /// Begins another verdict: a link to the place whose name follows.
    RemarkAt,
    /// Ends a verdict, or how a session went.
    LinkEnd,
    /// Ends the verdicts, or the sessions.
    VerdictsEnd,
    /// Begins the sessions.
    Sessions,
    /// Begins how a session went: a link to the place whose name follows.
    SessionAt,
    /// Begins a group with its heading.
    Group,
    /// Ends that heading, and names the ends on both sides.
    GroupNamed,
    /// Begins a stream or a datagram, as the place whose name follows.
    StreamAt,
    /// Begins a control stream, as the place whose name follows.
    ControlAt,
    /// Begins a QPACK encoder stream, as the place whose name follows.
    EncoderAt,
    /// Begins a QPACK decoder stream, as the place whose name follows.
    DecoderAt,
    /// Ends a stream or a datagram, or a group.
    SectionEnd,
    /// Begins what the client sent there, with its heading.
    Client,
    /// Begins what the server sent there, with its heading.
    Server,
    /// Ends the heading of what an end sent.
    Named,
    /// Begins bytes that are folded, with their number.
    Folded,
    /// Ends the number of bytes that are folded, and begins their rows.
    FoldedBytes,
    /// Ends bytes that are folded.
    FoldedEnd,
    /// Ends what an end sent.
    SentEnd,
    /// The page after what it shows.
    Tail,
}

impl Markup {
    /// Returns the text of the markup.
    fn as_str(self) -> &'static str
        ensures { result.now ≡ markup_bytes self }
    {
        match self {
            Markup::Head => HEAD,
            Markup::Main => MAIN,
            Markup::Bytes => "<pre class=\"bytes\">",
            Markup::RowsOf => "<span tabindex=\"0\" data-item=\"",
            Markup::PartOf => "<span data-item=\"",
            Markup::TagEnd => "\">",
            Markup::HeadOf => "<i>",
            Markup::HeadEnd => "</i>",
            Markup::SpanEnd => "</span>",
            Markup::PreEnd => "</pre>",
            Markup::Items => "<div class=\"items\">",
            Markup::ItemOf => "<div data-item=\"",
            Markup::First => "<details open><summary>",
            Markup::FirstEnd => "</summary>",
            Markup::Line => "<span>",
            Markup::Warnings => "</details><b>",
            Markup::ItemEnd => "</b></div>",
            Markup::Ending => "<pre>",
            Markup::Fault => "<pre class=\"fault\">",
            Markup::ItemsEnd => "</pre></div>",
            Markup::Verdicts => "<nav><h2>verdicts</h2>",
            Markup::FaultAt => "<a class=\"fault\" href=\"#",
            Markup::RemarkAt => "<a class=\"remark\" href=\"#",
            Markup::LinkEnd => "</a>",
            Markup::VerdictsEnd => "</nav>",
            Markup::Sessions => "<nav><h2>sessions</h2>",
            Markup::SessionAt => "<a class=\"session\" href=\"#",
            Markup::Group => "<section><h2>",
            Markup::GroupNamed => {
                "</h2><p class=\"ends\"><span>client</span><span>server</span></p>"
            }
            Markup::StreamAt => "<section class=\"stream\" id=\"",
            Markup::ControlAt => "<section class=\"stream paired control\" id=\"",
            Markup::EncoderAt => "<section class=\"stream paired encoder\" id=\"",
            Markup::DecoderAt => "<section class=\"stream paired decoder\" id=\"",
            Markup::SectionEnd => "</section>",
            Markup::Client => "<article><h3>",
            Markup::Server => "<article class=\"server\"><h3>",
            Markup::Named => "</h3>",
            Markup::Folded => "<details class=\"folded\"><summary>",
            Markup::FoldedBytes => "</summary><pre class=\"bytes\">",
            Markup::FoldedEnd => "</pre></details>",
            Markup::SentEnd => "</article>",
            Markup::Tail => TAIL,
        }
    }
}

/// A part of a page: markup, and text that is escaped. It remembers a failed allocation, so what
/// adds to it returns nothing.
#[derive(Drop)]
pub(super) struct Fragment {
    /// The allocator of the page.
    pub(super) alloc: Global,
    out: Vec<u8>,
    is_whole: Latch,
}

// The bytes of the fragment.
impl Model for Fragment {
    ghost Value = { List ℕ };

    ghost view = { λ fragment. fragment.out.items };

    ghost invariant = { λ fragment. IsTrue fragment.is_whole → IsFragment fragment.out.items };
}

impl Fragment {
    /// Creates an empty fragment.
    #[tactic(auto, using(crate::proofs::PageLemmas::fragment_nil))]
    pub(super) fn new(alloc: Global) -> Self {
        Fragment {
            alloc,
            out: Vec::new(alloc),
            is_whole: Latch::new(),
        }
    }

    /// Adds markup as it is.
    pub(super) fn markup(&mut self, markup: Markup)
        requires { entry_of markup ≡ [] }
    {
        let added = self.try_markup(markup);
        self.is_whole.note(added);
    }

    /// Adds markup as it is.
    ///
    /// Returns [`AllocError`] if allocation fails; then the fragment is as it was.
    fn try_markup(&mut self, markup: Markup) -> Result<(), AllocError>
        requires { entry_of markup ≡ [] }
        ensures added { IfOk result (λ _. self.new ≡ self.old ++ markup_bytes markup) }
        ensures kept { OnErr result (self.new ≡ self.old) }
    {
        self.out.extend_from_slice(markup.as_str().as_bytes())
    }

    /// Adds a text for which memory was allocated, escaped.
    pub(super) fn text(&mut self, text: Result<String, AllocError>) {
        let added = match text {
            Ok(text) => self.try_text(text.as_str()),
            Err(error) => Err(error),
        };
        self.is_whole.note(added);
    }

    /// Adds words, escaped.
    pub(super) fn words(&mut self, words: &str) {
        let added = self.try_text(words);
        self.is_whole.note(added);
    }

    /// Adds a text, escaped.
    ///
    /// Returns [`AllocError`] if allocation fails; then the fragment is as it was.
    fn try_text(&mut self, text: &str) -> Result<(), AllocError>
        ensures added { IfOk result (λ _. self.new ≡ self.old ++ html_text text.now) }
        ensures kept { OnErr result (self.new ≡ self.old) }
    {
        let escaped = escape_html(self.alloc, text.as_bytes())?;
        self.out.extend_from_slice(escaped.as_slice())
    }

    /// Adds the words of a line, and a line feed.
    pub(super) fn line(&mut self, words: &str) {
        let alloc = self.alloc;
        self.text(format!(in alloc; "{words}\n"));
    }

    /// Records that an allocation failed.
    pub(super) fn mark_failed(&mut self) {
        self.is_whole.mark_failed();
    }

    /// Adds the index of an item, and of a part of it, in an attribute, and ends its tag.
    pub(super) fn index(&mut self, index: usize, part: Option<usize>) {
        let alloc = self.alloc;
        match part {
            Some(part) => self.text(format!(in alloc; "{index}.{part}")),
            None => self.text(format!(in alloc; "{index}")),
        }
        self.markup(Markup::TagEnd);
    }

    /// Returns the bytes, or [`AllocError`] if an allocation failed.
    fn into_bytes(self) -> Result<Vec<u8>, AllocError>
        ensures { IfOk result (λ bytes. IsFragment bytes.items) }
    {
        self.is_whole.finish(self.out)
    }
}

/// A page: its head, then markup and fragments. It remembers a failed allocation, too.
#[derive(Drop)]
pub(super) struct Page {
    out: Vec<u8>,
    is_whole: Latch,
}

impl Page {
    /// Creates a page that has its head alone.
    pub(super) fn new(alloc: Global) -> Self
        ensures { HasEntries [] result }
    {
        let mut out = Vec::new(alloc);
        let added = out.extend_from_slice(Markup::Head.as_str().as_bytes());
        Page {
            out,
            is_whole: Latch::after(added),
        }
    }

    /// Adds markup as it is.
    pub(super) fn markup(&mut self, markup: Markup)
        ensures { AddsEntries (entry_of markup) self.old self.new }
    {
        let added = self.out.extend_from_slice(markup.as_str().as_bytes());
        self.is_whole.note(added);
    }

    /// Adds a fragment.
    pub(super) fn fragment(&mut self, fragment: Fragment)
        ensures { KeepsEntries self.old self.new }
    {
        let added = self.try_fragment(fragment);
        self.is_whole.note(added);
    }

    /// Adds a fragment.
    ///
    /// Returns [`AllocError`] if an allocation failed, now or when the fragment was made.
    fn try_fragment(&mut self, fragment: Fragment) -> Result<(), AllocError>
        ensures added { IfOk result (λ _. (more : List ℕ) × IsFragment more
            × (self.new.out.items ≡ self.old.out.items ++ more)) }
        ensures whole { self.new.is_whole ≡ self.old.is_whole }
    {
        let bytes = fragment.into_bytes()?;
        self.out.extend_from_slice(bytes.as_slice())
    }

    /// Adds the tail, and returns the page, or [`AllocError`] if an allocation failed meanwhile.
    pub(super) fn into_bytes(self) -> Result<Vec<u8>, AllocError>
        ensures { IfOk result (λ page. (entries : List Entry) → HasEntries entries self
            → IsPageOf entries page.items) }
    {
        let mut out = self.is_whole.finish(self.out)?;
        out.extend_from_slice(Markup::Tail.as_str().as_bytes())?;
        Ok(out)
    }
}

/// Returns the bytes of a text, with `&`, `<`, `>` and both quotation marks as character
/// references.
fn escape_html(alloc: Global, text: &[u8]) -> Result<Vec<u8>, AllocError>
    ensures { IfOk result (λ escaped. escaped.items ≡ html_text text.now) }
{
    let mut escaped = Vec::new(alloc);
    for byte in text {
        match reference_of(*byte) {
            Some(reference) => escaped.extend_from_slice(reference)?,
            None => escaped.push(*byte)?,
        }
    }
    Ok(escaped)
}

/// Returns the character reference of a byte, if it must not stand in a text as it is.
fn reference_of(byte: u8) -> Option<&'static [u8]>
    ensures { MatchOption result (html_byte byte ≡ byte ∷ [])
        (λ reference. reference.now ≡ html_byte byte) }
{
    match byte {
        b'&' => Some(b"&amp;"),
        b'<' => Some(b"&lt;"),
        b'>' => Some(b"&gt;"),
        b'"' => Some(b"&quot;"),
        b'\'' => Some(b"&#39;"),
        _ => None,
    }
}
