//! A link over WebSocket frames.

use crate::code::{NORMAL, code_of};
use crate::saying::Saying;
use crate::unsent::Unsent;
use fault::LIMIT;
use link::{Gave, Link, Record, Took};
use std::marker::Model;
use web_frames::{FrameReader, Position, binary_head, control_frame};
use websocket::protocol::frame::coding::Control;

/// A message that is given has at most this many bytes.
const MOST_MESSAGE: usize = 65_535;

/// What sending the unsent bytes came to.
#[derive(Clone, Copy)]
enum Went {
    All,
    Stuck,
    End,
    Failed,
}

/// A link whose bytes travel in binary messages. It takes the payloads of the messages that come. What it is given goes
/// out as messages of its own, one for the bytes that are given at once. A ping is answered. A text or a breach of the
/// protocol is a failure, and a close frame is the end.
#[derive(Drop)]
pub struct WebLink<L: Link> {
    link: L,
    reader: FrameReader,
    unsent: Unsent,
    saying: Saying,
    failures: u64,
    ends: u64,
    taken: Record,
    given: Record,
}

impl<L: Link> Model for WebLink<L> {
    ghost use Rattle.std.specs.Prelude.{◌≤◌, ◌^◌};
    ghost use Rattle.link.specs.Links.{LinkState};
    ghost use Rattle.web_link.specs.Web.{Web, Carries};

    ghost Value = { Web };

    ghost view = { λ w. record {
      wire = L.state w.link;
      carried = record {
        taken = w.taken.bytes;
        given = w.given.bytes;
        failed = w.failures;
        ended = w.ends;
      };
      reader = w.reader;
      unsent = w.unsent;
      saying = w.saying;
    } };

    ghost invariant = { λ w. (w.failures ≤ 2 ^ 62) × (w.ends ≤ 2 ^ 62) × Carries (record {
      wire = L.state w.link;
      carried = record {
        taken = w.taken.bytes;
        given = w.given.bytes;
        failed = w.failures;
        ended = w.ends;
      };
      reader = w.reader;
      unsent = w.unsent;
      saying = w.saying;
    }) };
}

impl<L: Link> WebLink<L> {
    ghost use Rattle.std.specs.Prelude.{◌≡◌, ◌<◌, ◌≤◌, [], ◌++◌, IfSome, false, length, true};
    ghost use Rattle.link.specs.Links.{TakesAs, GivesAs, with_end, with_failure};
    ghost use Rattle.web_frames.specs.Frames.{data_in, fresh};
    ghost use Rattle.web_link.specs.Web.{Carries, IsAtRest, SaysClose, SaysPing, SaysNoMore};

    /// A link in binary messages over a link that has taken and given nothing yet.
    pub fn new(link: L) -> WebLink<L>
        requires taken { (L.state link).taken ≡ [] }
        requires given { (L.state link).given ≡ [] }
        ensures carried { result.carried
            ≡ record { taken = []; given = []; failed = 0; ended = 0 } }
        ensures below { result.wire ≡ L.state link }
        ensures unsent { result.unsent ≡ [] }
    {
        WebLink {
            link,
            reader: FrameReader::new(true),
            unsent: Unsent::new(),
            saying: Saying::Between,
            failures: 0,
            ends: 0,
            taken: Record::new(),
            given: Record::new(),
        }
    }

    /// The link below.
    pub fn below(&self) -> &L
        ensures { L.state result.now ≡ self.now.wire }
    {
        &self.link
    }

    /// The link below, if both ends stand between two messages and nothing is unsent; otherwise `None`. Another link of
    /// messages may then begin over it as if nothing had been said.
    #[tactic(auto, using(crate::proofs::Carrying::all_sent))]
    pub fn into_below(self) -> Option<L>
        ensures below { IfSome result (λ link. L.state link ≡ self.wire) }
        ensures rests { IfSome result (λ _. IsAtRest self) }
        ensures taken { IfSome result (λ link.
            data_in (fresh true) (L.state link).taken ≡ self.carried.taken) }
        ensures given { IfSome result (λ link.
            data_in (fresh false) (L.state link).given ≡ self.carried.given) }
    {
        if self.saying == Saying::Between && self.unsent.is_empty() && self.reader.is_between() {
            Some(self.link)
        } else {
            None
        }
    }

    /// It does nothing. Its clause says that, at every moment, the bytes taken and given are the data of the frames on
    /// the link below.
    pub fn carries(&self)
        ensures { Carries self.now }
    {
        let _ = &self.failures;
    }

    fn fail(&mut self)
        ensures { self.new ≡ record self.old { carried = with_failure self.old.carried } }
    {
        self.failures = LIMIT.min(self.failures + 1);
    }

    fn end(&mut self)
        ensures { self.new ≡ record self.old { carried = with_end self.old.carried } }
    {
        self.ends = LIMIT.min(self.ends + 1);
    }

    /// Sends what is unsent, as far as it goes.
    #[tactic(auto, using(crate::proofs::Carrying::same_said))]
    fn send_unsent(&mut self) -> Went
        ensures same { self.new.carried ≡ self.old.carried }
        ensures saying { self.new.saying ≡ self.old.saying }
        ensures reader { self.new.reader ≡ self.old.reader }
        ensures said { self.new.wire.given ++ self.new.unsent
            ≡ self.old.wire.given ++ self.old.unsent }
        ensures all { result ≡ Went.All → self.new.unsent ≡ [] }
    {
        while !self.unsent.is_empty() {
            match self.link.give(self.unsent.as_slice()) {
                Gave::Bytes(count) => self.unsent.pass(count),
                Gave::Nothing => return Went::Stuck,
                Gave::End => return Went::End,
                Gave::Failed => return Went::Failed,
            }
        }
        Went::All
    }

    /// Begins a message for this many bytes, or for as many as a message may have.
    fn begin_message(&mut self, size: usize)
        requires between { self.old.saying ≡ Saying.Between }
        requires sent { self.old.unsent ≡ [] }
        requires some { 1 ≤ size }
        ensures { self.new.carried ≡ self.old.carried }
    {
        let size = size.min(MOST_MESSAGE);
        let head = binary_head(size as u16);
        self.unsent.set(head.as_slice());
        self.saying = Saying::Inside(size);
    }

    /// Sends what is unsent, and then the header of a message for this many bytes, unless one is begun.
    fn open_message(&mut self, size: usize) -> Went
        requires { 1 ≤ size }
        ensures same { self.new.carried ≡ self.old.carried }
        ensures all { result ≡ Went.All → self.new.unsent ≡ [] }
    {
        let went = self.send_unsent();
        if !matches!(went, Went::All) || self.saying != Saying::Between {
            return went;
        }
        self.begin_message(size);
        self.send_unsent()
    }

    /// Gives bytes to the message that is begun.
    fn give_payload(&mut self, left: usize, bytes: &[u8]) -> Gave
        requires inside { self.old.saying ≡ Saying.Inside left }
        requires sent { self.old.unsent ≡ [] }
        requires some { 0 < length bytes.now }
        ensures { GivesAs result self.old.carried self.new.carried bytes.now }
    {
        let (front, _) = bytes.split_at(bytes.len().min(left));
        match self.link.give(front) {
            Gave::Bytes(count) => {
                let (given, _) = front.split_at(count);
                self.given.note(given);
                self.saying = if count < left {
                    Saying::Inside(left - count)
                } else {
                    Saying::Between
                };
                Gave::Bytes(count)
            }
            Gave::Nothing => Gave::Nothing,
            Gave::End => {
                self.end();
                Gave::End
            }
            Gave::Failed => {
                self.fail();
                Gave::Failed
            }
        }
    }

    /// Answers a ping that waits, where the link stands between two messages.
    fn answer(&mut self)
        ensures same { self.new.carried ≡ self.old.carried }
        ensures reader { self.new.reader ≡ self.old.reader }
    {
        if let Saying::Between = self.saying {
            if self.unsent.is_empty() {
                if let Some(ping) = self.reader.take_ping() {
                    let frame = control_frame(Control::Pong, ping.as_slice());
                    self.unsent.set(frame.as_slice());
                }
            }
        }
        let _ = self.send_unsent();
    }

    /// Takes bytes from the link below, and answers the data in them.
    fn take_data(&mut self, into: &mut [u8]) -> Took
        requires { 0 < length into.old }
        ensures { TakesAs result self.old.carried self.new.carried into.new }
    {
        match self.link.take(into) {
            Took::Bytes(count) => {
                let (front, _) = into.split_at_mut(count);
                let brought = self.reader.read(front);
                let (data, _) = front.split_at(brought);
                self.taken.note(data);
                if brought == 0 {
                    Took::Nothing
                } else {
                    Took::Bytes(brought)
                }
            }
            Took::Nothing => Took::Nothing,
            Took::End => {
                self.end();
                Took::End
            }
            Took::Failed => {
                self.fail();
                Took::Failed
            }
        }
    }

    /// Sends an empty ping, where the link stands between two messages and nothing is unsent. Otherwise it does
    /// nothing. Call it now and then while a screen is silent, since a proxy cuts a connection that is silent for long.
    pub fn ping(&mut self)
        ensures same { self.new.carried ≡ self.old.carried }
        ensures reader { self.new.reader ≡ self.old.reader }
        ensures pings { SaysPing self.old self.new }
        ensures silent { SaysNoMore self.old self.new }
    {
        if let Saying::Between = self.saying {
            if self.unsent.is_empty() {
                let frame = control_frame(Control::Ping, &[]);
                self.unsent.set(frame.as_slice());
            }
        }
        let _ = self.send_unsent();
    }

    /// Sends a close frame with this code, where the link stands between two messages.
    fn close(&mut self, code: u16)
        ensures same { self.new.carried ≡ self.old.carried }
        ensures closes { SaysClose code self.old self.new }
    {
        if let Saying::Between = self.saying {
            if self.unsent.is_empty() {
                let frame = control_frame(Control::Close, &code.to_be_bytes());
                self.unsent.set(frame.as_slice());
                self.saying = Saying::Closed;
            }
        }
        let _ = self.send_unsent();
    }
}

impl<L: Link> Link for WebLink<L> {
    ghost use Rattle.std.specs.Prelude.{◌≡◌, ◌<◌, length};
    ghost use Rattle.link.specs.Links.{TakesAs};
    ghost use Rattle.web_frames.specs.declared.position.Breach.{Breach};
    ghost use Rattle.web_frames.specs.declared.position.Position.TheVariants.{Ended, Broken};
    ghost use Rattle.web_link.specs.Web.{SaysClose, close_code};

    ghost state = { λ w. w.carried };

    fn take(&mut self, into: &mut [u8]) -> Took
        requires { 0 < length into.old }
        ensures takes { TakesAs result self.old.carried self.new.carried into.new }
        ensures refused { (why : Breach) → self.old.reader.position ≡ Broken why
            → (result ≡ Took.Failed) × SaysClose (close_code why) self.old self.new }
        ensures closed { self.old.reader.position ≡ Ended
            → (result ≡ Took.End) × SaysClose 1000 self.old self.new }
    {
        match self.reader.position() {
            Position::Ended => {
                self.close(NORMAL);
                self.end();
                Took::End
            }
            Position::Broken(why) => {
                self.close(code_of(why));
                self.fail();
                Took::Failed
            }
            Position::Head | Position::Payload(_) => {
                self.answer();
                self.take_data(into)
            }
        }
    }

    fn give(&mut self, bytes: &[u8]) -> Gave {
        match self.open_message(bytes.len()) {
            Went::All => {}
            Went::Stuck => return Gave::Nothing,
            Went::End => {
                self.end();
                return Gave::End;
            }
            Went::Failed => {
                self.fail();
                return Gave::Failed;
            }
        }
        match self.saying {
            Saying::Inside(left) => self.give_payload(left, bytes),
            Saying::Between | Saying::Closed => {
                self.end();
                Gave::End
            }
        }
    }

    fn flush(&mut self) {
        let _ = self.send_unsent();
        self.link.flush();
    }

    fn failures(&self) -> u64 {
        self.failures
    }
}
