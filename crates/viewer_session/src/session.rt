//! One viewer's session: how it begins, and what it shows.

ghost use Rattle.std.specs.Prelude.{◌≡◌, ◌+◌, ◌≤◌, ◌↔◌, Bool, IsTrue, ◌++◌, ◌∷◌, true, false, [], drop, length, is_some, option_map, IfOk, IfErr, MatchOption, None};
ghost use Rattle.fault.specs.declared.kinds.Fault.TheVariants.{Memory};
ghost use Rattle.byte_reading.specs.Reading.{fault_of};
ghost use Rattle.raster.specs.Size.{IsScreenSize};
ghost use Rattle.rfb_wire.specs.ClientReader.{ahead};
ghost use Rattle.rfb_wire.specs.Greeting.{to_send};
ghost use Rattle.reflect_core.specs.Sequential.{Begins};
ghost use Rattle.roles.specs.Held.{input_in, left_in};
ghost use Rattle.viewer_session.specs.Outgoing.{longest_piece};
ghost use Rattle.viewer_session.specs.Session.{State, Stands, HasReleases, IsBegun, IsBetween, IsGreeting, IsSameSession, fault_in, hello_fault, is_greeted, is_ready, after_writing, without_input};
ghost use Rattle.viewer_session.specs.Viewer.{Setup, Viewer, new_viewer, may_look};

mod reading;
mod turning;

use crate::compressor::Compressor;
use crate::form::AnswerForm;
use crate::outgoing::Outgoing;
use fault::Fault;
use joined_runs::RectForm;
use painter::Wanted;
use pixel_format::Format;
use raster::{Encoding, Size};
pub use reading::Fed;
use reflect_core::Asked;
use rfb_wire::{Choice, ClientReader, ViewerHello};
use roles::{Held, Input, Role};
use std::alloc::Global;
use std::marker::Model;
use tiles::Have;

/// A viewer's hello and messages are read, and answered from a source of screens (RFC 6143, 7.1 to 7.6). An input that
/// the viewer's role allows waits to be taken, and until it is taken no further byte is read. The keys and buttons that
/// the viewer holds down are released when it leaves.
///
/// What is sent waits in pieces: `out` is the bytes of a hello, a Bell, a text, the header of an update or one
/// rectangle, and once `sent` has emptied it the next piece takes its place. An answer keeps the format and the choice
/// that held at its cut. Tiles count as sent from the cut on, so what a message makes the session forget while pieces
/// are unsent stays forgotten.
#[derive(Drop)]
pub struct Session {
    width: u64,
    height: u64,
    form: AnswerForm,
    // The size of the host's screen at first, where the viewer is told of sizes.
    host: Option<Size>,
    role: Role,
    hello: Option<ViewerHello>,
    reader: ClientReader,
    format: Format,
    choice: Choice,
    // The size that the viewer was told after its hello.
    told: Option<Size>,
    asked: Asked,
    have: Have,
    out: Outgoing,
    held: Held,
    waiting: Option<Input>,
    // Whether the first bytes of its zlib stream were sent (RFC 6143, 7.7.6).
    stream_begun: bool,
    compressor: Compressor,
    // How many answers were begun, for a log.
    answers: u64,
}

impl Model for Session {
    ghost use Rattle.std.specs.Prelude.{option_map};
    ghost use Rattle.rfb_wire.specs.Message.{choice_in};
    ghost use Rattle.roles.specs.Held.{input_in};
    ghost use Rattle.viewer_session.specs.Session.{State, IsSound};

    ghost Value = { State };

    ghost view = { λ s. record {
      width = s.width;
      height = s.height;
      form = s.form;
      host = s.host;
      role = s.role;
      greeting = s.hello;
      reader = s.reader;
      format = s.format;
      choice = choice_in s.choice;
      told = s.told;
      asked = s.asked;
      have = s.have;
      cut = s.out.cut;
      piece = s.out.piece;
      unsent = s.out.unsent;
      held = s.held;
      waiting = option_map input_in s.waiting;
      begun = s.stream_begun;
    } };

    ghost invariant = { λ s. IsSound s.width s.height s.hello s.reader s.asked s.have s.out };
}

impl Session {
    /// A session of a viewer that begins with its hello, over a screen of `w` by `h` pixels with a name of 1 to 255
    /// bytes, and that is answered in this form. It is told of the sizes of the host's screen, of which `host` is the
    /// first, where there is one. All the room that it needs is taken here, but for what answers in ZRLE take. It fails
    /// where memory is refused (`Memory`).
    pub fn open(
        alloc: Global,
        w: u64,
        h: u64,
        name: &[u8],
        role: Role,
        form: AnswerForm,
        host: Option<Size>,
    ) -> Result<Self, Fault>
        requires size { IsScreenSize w h }
        requires name { (1 ≤ length name.now) × (length name.now ≤ 255) }
        ensures size { IfOk result (λ session. (session.width ≡ w) × (session.height ≡ h)) }
        ensures uncut { IfOk result (λ session. session.asked.last ≡ None) }
        ensures stands { IfOk result (λ session. (s : Setup) → s.w ≡ w → s.h ≡ h → s.name ≡ name.now
            → s.form ≡ form → s.host ≡ host
            → Stands s session (new_viewer role true)) }
        ensures err { IfErr result (λ fault. fault ≡ Memory) }
    {
        let mut out = Outgoing::new(alloc, w, h)?;
        let mut hello = ViewerHello::new(w, h, name);
        say(&mut hello, &mut out);
        Session::begun(alloc, w, h, role, form, host, Some(hello), out)
    }

    /// A session of a viewer whose handshake is done, over a screen of `w` by `h` pixels, which is answered in this
    /// form. It is told of the sizes of the host's screen, of which `host` is the first, where there is one. All the
    /// room that it needs is taken here, but for what answers in ZRLE take. It fails where memory is refused
    /// (`Memory`).
    pub fn ready(
        alloc: Global,
        w: u64,
        h: u64,
        role: Role,
        form: AnswerForm,
        host: Option<Size>,
    ) -> Result<Self, Fault>
        requires { IsScreenSize w h }
        ensures size { IfOk result (λ session. (session.width ≡ w) × (session.height ≡ h)) }
        ensures uncut { IfOk result (λ session. session.asked.last ≡ None) }
        ensures stands { IfOk result (λ session. (s : Setup) → s.w ≡ w → s.h ≡ h
            → s.form ≡ form → s.host ≡ host
            → Stands s session (new_viewer role false)) }
        ensures err { IfErr result (λ fault. fault ≡ Memory) }
    {
        let out = Outgoing::new(alloc, w, h)?;
        Session::begun(alloc, w, h, role, form, host, None, out)
    }

    /// A session that begins with this hello, or with none. What the hello says first waits in `out`.
    fn begun(
        alloc: Global,
        w: u64,
        h: u64,
        role: Role,
        form: AnswerForm,
        host: Option<Size>,
        hello: Option<ViewerHello>,
        out: Outgoing,
    ) -> Result<Self, Fault>
        requires size { IsScreenSize w h }
        requires cut { (out.cut.width ≡ w) × (out.cut.height ≡ h) }
        requires greets { IsGreeting hello out }
        ensures size { IfOk result (λ session. (session.width ≡ w) × (session.height ≡ h)) }
        ensures uncut { IfOk result (λ session. session.asked.last ≡ None) }
        ensures stands { IfOk result (λ session.
            (s : Setup) (greet : Bool) → s.w ≡ w → s.h ≡ h → s.form ≡ form
            → s.host ≡ host → IsBegun s role greet hello out
            → Stands s session (new_viewer role greet)) }
        ensures err { IfErr result (λ fault. fault ≡ Memory) }
    {
        let have = Have::new(alloc, w, h)?;
        Ok(Session {
            width: w,
            height: h,
            form,
            host,
            role,
            hello,
            reader: ClientReader::new(alloc),
            format: Format::HOST,
            choice: Choice {
                kind: Encoding::Raw,
                copy: false,
                resizes: false,
                zrle: false,
            },
            told: None,
            asked: Asked::new(w, h),
            have,
            out,
            held: Held::new(),
            waiting: None,
            stream_begun: false,
            compressor: Compressor::new(alloc),
            answers: 0,
        })
    }

    /// The piece that is sent next: the first of the unsent bytes. It is empty exactly where no byte is unsent.
    pub fn out(&self) -> &[u8]
        ensures value { result.now ≡ self.now.piece }
        ensures begins { Begins result.now self.now.unsent }
        ensures empty { (length result.now ≡ 0) ↔ (self.now.unsent ≡ []) }
        ensures short { length result.now ≤ longest_piece self.now.width }
    {
        self.out.piece()
    }

    /// This many bytes of the piece, from the first on, were sent. Once it is empty the next takes its place.
    pub fn sent(&mut self, n: usize)
        requires { n ≤ length self.old.piece }
        ensures same { IsSameSession self.old self.new }
        ensures unsent { self.new
            ≡ record self.old { piece = self.new.piece; unsent = drop n self.old.unsent } }
        ensures stands { (s : Setup) (p : Viewer) → Stands s self.old p
            → Stands s self.new (after_writing n p) }
    {
        self.out.sent(n);
    }

    /// The fault of the viewer's bytes, if there is one. A fault is final.
    pub fn fault(&self) -> Option<Fault>
        ensures { result ≡ fault_in self.now }
    {
        match self.hello_fault() {
            Some(fault) => Some(fault),
            None => self.reader.fault(),
        }
    }

    /// The fault of the hello, if there is one.
    fn hello_fault(&self) -> Option<Fault>
        ensures { result ≡ hello_fault self.now }
    {
        match &self.hello {
            Some(hello) => hello.fault(),
            None => None,
        }
    }

    /// Whether the hello is done, so that messages are read.
    fn is_greeted(&self) -> bool
        ensures value { result ≡ is_greeted self.now }
        ensures fresh { is_greeted self.now ≡ false → fault_of (ahead self.now.reader) ≡ None }
    {
        match &self.hello {
            Some(hello) => hello.done(),
            None => true,
        }
    }

    /// Whether the viewer may be served: all bytes were sent, the hello is done, and there is no fault.
    pub fn is_ready(&self) -> bool
        ensures value { result ≡ is_ready self.now }
        ensures stands { (s : Setup) (p : Viewer) → Stands s self.now p → result ≡ may_look s p }
    {
        self.out.piece().is_empty() && self.is_greeted() && self.reader.fault().is_none()
    }

    /// Whether an input waits to be taken.
    pub fn has_input(&self) -> bool
        ensures { result ≡ is_some self.now.waiting }
    {
        self.waiting.is_some()
    }

    /// Takes the input that waits: that of a message, as far as the viewer's role allows it. Then no input waits, and
    /// the bytes after that message may be fed. Where none waits it answers `None`, and nothing has changed. It takes
    /// no memory.
    pub fn take_input(&mut self) -> Option<Input>
        ensures value { option_map input_in result ≡ self.old.waiting }
        ensures others { self.new ≡ record self.old { waiting = None } }
        ensures stands { (s : Setup) (p : Viewer) → Stands s self.old p
            → Stands s self.new (without_input p) }
    {
        self.waiting.take()
    }

    /// How many inputs `leave` has still to release: at most 65.
    pub fn releases(&self) -> usize
        ensures value { result ≡ length (left_in self.now.held) }
        ensures most { result ≤ 65 }
    {
        self.held.releases()
    }

    /// The next release of a viewer that has left: one of each key that is down, by rising number, and then mask 0 at
    /// the last position if the last mask wasn't 0. After the last release it answers `None`. An input that waits has
    /// to be taken before. It takes no memory.
    pub fn leave(&mut self) -> Option<Input>
        ensures next { MatchOption result ((left_in self.old.held ≡ []) × (self.new ≡ self.old))
            (λ input. left_in self.old.held ≡ input_in input ∷ left_in self.new.held) }
        ensures others { self.new ≡ record self.old { held = self.new.held } }
        ensures releases { HasReleases self.old }
    {
        self.held.release()
    }

    /// How many answers were begun, for a log: no clause speaks of it. The count stays at the highest number.
    pub fn answers(&self) -> u64 {
        self.answers
    }

    /// How many updates the last look found, whether an answer was begun then or not. It is for a log: no clause speaks
    /// of it.
    pub fn shown(&self) -> u64 {
        self.asked.last_cut().unwrap_or(0)
    }

    /// What answers would use of what a source lends: forms of tiles and encoded areas where they are written in joined
    /// runs, in Hextile without ZRLE, and in a format that keeps colours apart; shared parts where they are in ZRLE. No
    /// clause speaks of it.
    pub fn wants(&self) -> Wanted {
        let in_zrle = self.form.zrle && self.choice.zrle;
        let uses_forms = self.form.runs == RectForm::Joined
            && self.choice.kind == Encoding::Hextile
            && !in_zrle
            && self.format.keeps_apart();
        Wanted {
            forms: uses_forms.then_some(self.format),
            parts: in_zrle,
        }
    }

    /// Whether the viewer stands between two messages: its hello is done, there is no fault, and no byte was used since
    /// the hello's end or the last whole message.
    pub fn between(&self) -> bool
        ensures { (s : Setup) (p : Viewer) → Stands s self.now p → (IsTrue result ↔ IsBetween p) }
    {
        self.is_greeted() && self.reader.is_between()
    }
}

/// The bytes of the hello that are to be said by now wait to be sent.
fn say(hello: &mut ViewerHello, out: &mut Outgoing)
    requires room { out.old.filled + length (to_send hello.old) ≤ 65544 }
    requires alone { out.old.unsent ≡ out.old.piece }
    ensures hello { hello.new
        ≡ record hello.old { sent = hello.old.sent + length (to_send hello.old) } }
    ensures cut { out.new.cut ≡ out.old.cut }
    ensures filled { out.new.filled ≡ out.old.filled + length (to_send hello.old) }
    ensures unsent { out.new.unsent ≡ out.old.unsent ++ to_send hello.old }
    ensures alone { out.new.unsent ≡ out.new.piece }
{
    let said = hello.out();
    let count = said.len();
    out.append(said);
    hello.sent(count);
}
