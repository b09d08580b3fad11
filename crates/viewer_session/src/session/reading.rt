//! What a viewer sends: its hello, then its messages.

ghost use Rattle.std.specs.Prelude.{◌≡◌, ◌<◌, ◌≤◌, true, false, if◌then◌else◌, [], drop, length, IfOk, IfErr, Err, None, Some, option_map};
ghost use Rattle.byte_reading.specs.Reading.{wants_more, fault_of};
ghost use Rattle.rfb_wire.specs.ClientReader.{ahead};
ghost use Rattle.rfb_wire.specs.ClientMessage.{Ask, SetPixelFormat, SetEncodings};
ghost use Rattle.rfb_wire.specs.Message.{choice_in, message_of, FeedsOrLoses};
ghost use Rattle.roles.specs.Held.{input_in};
ghost use Rattle.viewer_session.specs.Session.{Serves, Stands, IsSameSession, IsFeeding, FeedsUpTo, FeedsToFault, ReadsHello, ReadsOne, fault_in, hello_fault, hello_of, is_greeted, marks_in, text_mark, after_noting, after_taking};
ghost use Rattle.viewer_session.specs.Viewer.{Setup, Viewer, after_byte};

use super::{Session, say};
use fault::{Fault, LONGEST_TEXT};
use pixel_format::Format;
use raster::Rect;
use rfb_wire::{Choice, ClientMessage};
use roles::Input;

/// What a piece of a viewer's bytes was used for.
#[derive(Clone, Copy)]
pub struct Fed {
    /// How many of its bytes were used.
    pub used: usize,
    /// Where they completed a text of at most 65,536 bytes: whether that is lost, since it found no memory.
    pub lost: Option<bool>,
}

impl Session {
    /// Whether another byte of the hello is to come.
    fn wants_hello(&self) -> bool
        ensures { result ≡ wants_more (hello_of self.now.greeting) }
    {
        match &self.hello {
            Some(hello) => hello.wants_more(),
            None => false,
        }
    }

    /// A byte of the hello is taken. The answer to it waits to be sent; a byte that shows a fault has none.
    fn greet(&mut self, byte: u8)
        requires wants { wants_more (hello_of self.old.greeting) ≡ true }
        requires none { self.old.waiting ≡ None }
        ensures others { self.new ≡ record self.old {
          greeting = self.new.greeting;
          piece = self.new.piece;
          unsent = self.new.unsent;
        } }
        ensures stands { (s : Setup) (p : Viewer) → Stands s self.old p
            → Stands s self.new (after_byte p byte) }
    {
        if let Some(hello) = &mut self.hello {
            // The hello uses the byte, since it wants one. It keeps a fault that the byte shows, and `hello_fault`
            // names that.
            let _ = hello.feed(&[byte]);
            say(hello, &mut self.out);
        }
    }

    /// Takes the bytes of the hello, one by one, and answers how many they are. It fails at the byte that shows a
    /// fault, and from then on.
    fn read_hello(&mut self, piece: &[u8]) -> Result<usize, Fault>
        requires open { is_greeted self.old ≡ false }
        requires none { self.old.waiting ≡ None }
        ensures others { self.new ≡ record self.old {
          greeting = self.new.greeting;
          piece = self.new.piece;
          unsent = self.new.unsent;
        } }
        ensures ok { IfOk result (λ used. ReadsHello self.old self.new piece.now used) }
        ensures err { IfErr result (λ fault.
            (hello_fault self.new ≡ Some fault) × IsFeeding self.old self.new [] piece.now []) }
    {
        let mut used = 0;
        while used < piece.len() && self.wants_hello() {
            self.greet(piece[used]);
            used += 1;
        }
        match self.hello_fault() {
            Some(fault) => Err(fault),
            None => Ok(used),
        }
    }

    /// A request for a rectangle is taken, clipped to the screen. An empty one is forgotten.
    fn ask(&mut self, incremental: bool, rect: &Rect)
        ensures same { IsSameSession self.old self.new }
        ensures reader { (self.new.reader ≡ self.old.reader)
            × (self.new.greeting ≡ self.old.greeting) }
        ensures input { (self.new.held ≡ self.old.held) × (self.new.waiting ≡ self.old.waiting) }
        ensures serves { (s : Setup) (p : Viewer) → Serves s self.old p
            → Serves s self.new (after_noting (Ask incremental rect.now) p) }
    {
        let clipped = rect.clip(self.width, self.height);
        self.asked.request(&clipped);
        if !incremental && !clipped.is_empty() {
            self.have.forget(&clipped);
        }
    }

    /// A pixel format is taken: the viewer has nothing of the screen any longer.
    fn set_format(&mut self, format: Format)
        ensures same { IsSameSession self.old self.new }
        ensures reader { (self.new.reader ≡ self.old.reader)
            × (self.new.greeting ≡ self.old.greeting) }
        ensures input { (self.new.held ≡ self.old.held) × (self.new.waiting ≡ self.old.waiting) }
        ensures serves { (s : Setup) (p : Viewer) → Serves s self.old p
            → Serves s self.new (after_noting (SetPixelFormat format) p) }
    {
        self.format = format;
        self.asked.new_format();
        self.have.forget_all();
    }

    /// A list of encodings is taken: from now on answers are written by the choice that it leads to.
    fn set_choice(&mut self, choice: Choice)
        ensures same { IsSameSession self.old self.new }
        ensures reader { (self.new.reader ≡ self.old.reader)
            × (self.new.greeting ≡ self.old.greeting) }
        ensures input { (self.new.held ≡ self.old.held) × (self.new.waiting ≡ self.old.waiting) }
        ensures serves { (s : Setup) (p : Viewer) → Serves s self.old p
            → Serves s self.new (after_noting (SetEncodings (choice_in choice)) p) }
    {
        self.choice = choice;
    }

    /// Where this input passes, it waits from now on.
    fn wait(&mut self, passes: bool, input: Input)
        ensures { self.new ≡ record self.old {
          waiting = if passes then Some (input_in input) else self.old.waiting;
        } }
    {
        if passes {
            self.waiting = Some(input);
        }
    }

    /// A message is taken: what it asks for or sets holds from now on, and its input waits, where it passes.
    fn take_message(&mut self, message: ClientMessage)
        requires none { self.old.waiting ≡ None }
        ensures same { IsSameSession self.old self.new }
        ensures reader { (self.new.reader ≡ self.old.reader)
            × (self.new.greeting ≡ self.old.greeting) }
        ensures stands { (s : Setup) (p : Viewer) → Stands s self.old p
            → Stands s self.new (after_taking (message_of message) p) }
    {
        let passes = self.held.passes(self.role, &message);
        match message {
            ClientMessage::Format(format) => self.set_format(format),
            ClientMessage::Ask { incremental, rect } => self.ask(incremental, &rect),
            ClientMessage::Encodings(choice) => self.set_choice(choice),
            ClientMessage::Key { down, key } => self.wait(passes, Input::Key { down, key }),
            ClientMessage::Pointer { mask, x, y } => {
                self.wait(passes, Input::Pointer { mask, x, y })
            }
            ClientMessage::Cut(text) => self.wait(passes, Input::Cut(text)),
            ClientMessage::CutLost(_) => {}
        }
    }

    /// Reads on, up to the end of a whole message, and takes that message from the reader.
    fn read_one(&mut self, piece: &[u8]) -> Result<(usize, Option<ClientMessage>), Fault>
        requires { is_greeted self.old ≡ true }
        ensures others { self.new ≡ record self.old { reader = self.new.reader } }
        ensures ok { IfOk result (λ read.
            ReadsOne self.old self.new piece.now read.0 (option_map message_of read.1)
            × (fault_of (ahead self.new.reader) ≡ None)) }
        ensures progress { IfOk result (λ read.
            (read.0 ≤ length piece.now) × (0 < length piece.now → 0 < read.0)) }
        ensures err { IfErr result (λ fault.
            FeedsOrLoses (ahead self.old.reader) (ahead self.new.reader) piece.now (Err fault)) }
    {
        let used = self.reader.feed(piece)?;
        let message = self.reader.take();
        Ok((used, message))
    }

    /// Takes bytes after the hello, up to the end of a message.
    fn read_message(&mut self, piece: &[u8]) -> Result<Fed, Fault>
        requires greeted { is_greeted self.old ≡ true }
        requires none { self.old.waiting ≡ None }
        ensures same { IsSameSession self.old self.new }
        ensures greeting { self.new.greeting ≡ self.old.greeting }
        ensures ok { IfOk result (λ fed.
            IsFeeding self.old self.new (marks_in fed.lost) piece.now (drop fed.used piece.now)
            × (fault_of (ahead self.new.reader) ≡ None)) }
        ensures progress { IfOk result (λ fed.
            (fed.used ≤ length piece.now) × (0 < length piece.now → 0 < fed.used)) }
        ensures err { IfErr result (λ fault. (fault_of (ahead self.new.reader) ≡ Some fault)
            × IsFeeding self.old self.new [] piece.now []) }
    {
        let (used, message) = self.read_one(piece)?;
        let Some(message) = message else {
            return Ok(Fed { used, lost: None });
        };
        let lost = mark_of(&message);
        self.take_message(message);
        Ok(Fed { used, lost })
    }

    /// Takes bytes of the hello, or bytes of the messages after it up to the end of one message. It uses at least one
    /// byte, where there is one. It fails at the byte that shows a fault, and from then on it uses no byte and fails
    /// with the same fault. The faults are those of `feed`.
    pub fn feed_message(&mut self, piece: &[u8]) -> Result<Fed, Fault>
        requires none { self.old.waiting ≡ None }
        ensures same { IsSameSession self.old self.new }
        ensures ok { IfOk result (λ fed.
            IsFeeding self.old self.new (marks_in fed.lost) piece.now (drop fed.used piece.now)
            × (fault_in self.new ≡ None)) }
        ensures progress { IfOk result (λ fed.
            (fed.used ≤ length piece.now) × (0 < length piece.now → 0 < fed.used)) }
        ensures err { IfErr result (λ fault.
            (fault_in self.new ≡ Some fault) × IsFeeding self.old self.new [] piece.now []) }
    {
        if self.is_greeted() {
            return self.read_message(piece);
        }
        let used = self.read_hello(piece)?;
        Ok(Fed { used, lost: None })
    }

    /// Takes a piece of the viewer's bytes: first those of its hello, then its messages, up to one whose input then
    /// waits. While an input waits no byte is used. It fails at the byte that shows a fault, and from then on it uses
    /// no byte and fails with the same fault.
    ///
    /// `BadVersion` and `BadChoice` in the hello; `UnknownMessage` at a type that isn't known, `BadFormat` at a pixel
    /// format that isn't accepted.
    pub fn feed(&mut self, piece: &[u8]) -> Result<usize, Fault>
        ensures same { IsSameSession self.old self.new }
        ensures ok { IfOk result (λ used. FeedsUpTo self.old self.new piece.now used) }
        ensures err { IfErr result (λ fault. FeedsToFault self.old self.new piece.now fault) }
    {
        let mut used = 0;
        while used < piece.len() && !self.has_input() {
            let (_, left) = piece.split_at(used);
            let fed = self.feed_message(left)?;
            used += fed.used;
        }
        match self.fault() {
            Some(fault) if !self.has_input() => Err(fault),
            _ => Ok(used),
        }
    }
}

/// Where this is a text of at most 65,536 bytes, whether it is lost.
fn mark_of(message: &ClientMessage) -> Option<bool>
    ensures { result ≡ text_mark (message_of message.now) }
{
    match message {
        ClientMessage::Cut(_) => Some(false),
        ClientMessage::CutLost(len) if *len <= LONGEST_TEXT => Some(true),
        _ => None,
    }
}
