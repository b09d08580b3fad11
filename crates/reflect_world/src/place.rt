//! A viewer of a world: its session, and the bytes that were written to it.

ghost use Rattle.std.specs.Prelude.{◌≡◌, ℕ, ◌+◌, ◌≤◌, ◌<◌, [], ◌++◌, true, false, is_some, option_map, vec_capacity, vec_len, min, length, take, None, Some, IfOk, IfErr, MatchOption, OnOk, ◌∷◌};
ghost use Rattle.fault.specs.declared.kinds.Fault.TheVariants.{Memory};
ghost use Rattle.raster.specs.Size.{IsScreenSize};
ghost use Rattle.roles.specs.Held.{input_in};
ghost use Rattle.viewer_session.specs.Session.{Stands, fault_in, is_ready};
ghost use Rattle.viewer_session.specs.Viewer.{Setup, new_viewer};
ghost use Rattle.reflect_world.specs.World.{GoesOn, HasLooked, HasSent, IsBrokenOff, IsFed, IsWritten, ReadsMore, WritesSome, left_by, plain_form};

use crate::unread::Unread;
use fault::Fault;
use joined_runs::RectForm;
use reflect_core::PlainScreen;
use roles::{Input, Role};
use std::alloc::Global;
use std::marker::Model;
use viewer_session::{AnswerForm, Session};

/// A viewer's session, the reply of its last step where that was a look, all bytes that were written to it, and its own
/// bytes that are unread since an input of it waits.
#[derive(Drop)]
pub(crate) struct Place {
    session: Session,
    looked: Option<u64>,
    written: Vec<u8>,
    unread: Unread,
}

impl Model for Place {
    ghost use Rattle.reflect_world.specs.World.{Held};

    ghost Value = { Held };

    ghost view = { λ p. record {
      session = p.session;
      looked = p.looked;
      written = p.written.items;
      unread = p.unread;
    } };
}

impl Place {
    /// A viewer that has sent nothing yet, over a screen with a name of 1 to 255 bytes. It is answered in this form. It
    /// begins with its hello where `greet` says so. It fails where memory is refused (`Memory`).
    pub(crate) fn new(
        alloc: Global,
        width: u64,
        height: u64,
        name: &[u8],
        role: Role,
        runs: RectForm,
        greet: bool,
    ) -> Result<Self, Fault>
        requires size { IsScreenSize width height }
        requires name { (1 ≤ length name.now) × (length name.now ≤ 255) }
        ensures fresh { IfOk result (λ place.
            (place.looked ≡ None) × (place.written ≡ []) × (place.unread ≡ [])) }
        ensures uncut { IfOk result (λ place. place.session.asked.last ≡ None) }
        ensures stands { IfOk result (λ place. (s : Setup) → s.w ≡ width → s.h ≡ height
            → s.name ≡ name.now → s.form ≡ plain_form runs → s.host ≡ None
            → Stands s place.session (new_viewer role greet)) }
        ensures err { IfErr result (λ fault. fault ≡ Memory) }
    {
        let form = AnswerForm {
            runs,
            zrle: false,
            copies: false,
        };
        let session = if greet {
            Session::open(alloc, width, height, name, role, form, None)?
        } else {
            Session::ready(alloc, width, height, role, form, None)?
        };
        Ok(Place {
            session,
            looked: None,
            written: Vec::new(alloc),
            unread: Unread::new(alloc),
        })
    }

    /// The bytes that were written to it.
    pub(crate) fn written(&self) -> &[u8]
        ensures { result.now ≡ self.now.written }
    {
        self.written.as_slice()
    }

    /// The fault of its bytes, if there is one.
    pub(crate) fn fault(&self) -> Option<Fault>
        ensures { result ≡ fault_in self.now.session }
    {
        self.session.fault()
    }

    /// Bytes of the viewer come. They are read after those that are unread, up to a message whose input waits. For each
    /// text that becomes whole `lost` gets a mark: whether it found no memory. Memory is asked for first; where it is
    /// refused (`Memory`) nothing has changed.
    pub(crate) fn feed(&mut self, bytes: &[u8], lost: &mut Vec<bool>) -> Result<(), Fault>
        requires { lost.old.items ≡ [] }
        ensures ok { OnOk result (IsFed self.old self.new bytes.now lost.new.items) }
        ensures err { IfErr result (λ fault. (fault ≡ Memory) × (self.new ≡ self.old)) }
    {
        self.unread.add(bytes)?;
        let Ok(()) = lost.reserve(self.unread.bytes().len()) else {
            self.unread.take_back(bytes.len());
            return Err(Fault::Memory);
        };
        self.looked = None;
        while !self.unread.bytes().is_empty() && !self.session.has_input() {
            self.read_on(lost);
        }
        Ok(())
    }

    /// Reads unread bytes, up to the end of a message. After a fault no byte is looked at.
    fn read_on(&mut self, lost: &mut Vec<bool>)
        requires some { 0 < length self.old.unread }
        requires none { self.old.session.waiting ≡ None }
        requires room { vec_len lost.old < vec_capacity lost.old }
        ensures reads { ReadsMore self.old self.new lost.old.items lost.new.items }
        ensures room { (vec_capacity lost.old ≤ vec_capacity lost.new)
            × (vec_len lost.new + length self.new.unread
            ≤ vec_len lost.old + length self.old.unread) }
        ensures shorter { length self.new.unread < length self.old.unread }
    {
        match self.session.feed_message(self.unread.bytes()) {
            Ok(fed) => {
                self.unread.take(fed.used);
                if let Some(mark) = fed.lost {
                    let Ok(()) = lost.push(mark) else {
                        unreachable!()
                    };
                }
            }
            Err(_) => self.unread.clear(),
        }
    }

    /// Whether an input of the viewer waits for room in the queue.
    pub(crate) fn is_waiting(&self) -> bool
        ensures { result ≡ is_some self.now.session.waiting }
    {
        self.session.has_input()
    }

    /// Notes that the viewer's last step was no look.
    pub(crate) fn forget_look(&mut self)
        ensures { self.new ≡ record self.old { looked = None } }
    {
        self.looked = None;
    }

    /// Takes the input that waits, if there is one.
    pub(crate) fn send(&mut self) -> Option<Input>
        ensures value { option_map input_in result ≡ self.old.session.waiting }
        ensures sent { HasSent self.old self.new }
    {
        self.looked = None;
        self.session.take_input()
    }

    /// How many inputs go to the host where the viewer leaves: the one that waits, and the releases.
    pub(crate) fn inputs_left(&self) -> usize
        ensures { result ≡ length (left_by self.now) }
    {
        let releases = self.session.releases();
        if self.session.has_input() {
            releases + 1
        } else {
            releases
        }
    }

    /// The next input of a viewer that leaves, and `None` once there is none left.
    pub(crate) fn leave(&mut self) -> Option<Input>
        ensures next { MatchOption result (left_by self.old ≡ [])
            (λ input. left_by self.old ≡ input_in input ∷ left_by self.new) }
    {
        match self.session.take_input() {
            Some(input) => Some(input),
            None => self.session.leave(),
        }
    }

    /// The viewer looks at the tally, if it may.
    pub(crate) fn look(&mut self, tally: u64)
        ensures { HasLooked self.old self.new tally }
    {
        self.looked = if self.session.is_ready() {
            Some(tally)
        } else {
            None
        };
    }

    /// The viewer goes on with its turn after its look. It takes no memory, and always succeeds, since a `PlainScreen`
    /// never ends.
    pub(crate) fn cut(&mut self, screen: &mut PlainScreen)
        requires ready { is_some self.old.looked ≡ true → is_ready self.old.session ≡ true }
        requires size { (self.old.session.width ≡ screen.old.width)
            × (self.old.session.height ≡ screen.old.height) }
        ensures goes_on { GoesOn self.old.looked self.old self.new screen.old.updates }
        ensures screen { screen.new ≡ screen.old }
    {
        let Some(looked) = self.looked else {
            return;
        };
        let Ok(_) = self.session.turn_at(screen, looked) else {
            unreachable!()
        };
        self.looked = None;
    }

    /// Writes this many of its unsent bytes, or all of them where there are fewer, piece by piece. Where memory is
    /// refused (`Memory`) what was written before this call is kept, and the session can't be used any more.
    pub(crate) fn write(&mut self, count: u64) -> Result<(), Fault>
        ensures ok { OnOk result
            (IsWritten self.old self.new (min count (length self.old.session.unsent))) }
        ensures err { IfErr result (λ fault. (fault ≡ Memory) × IsBrokenOff self.old self.new) }
    {
        let before = self.written.len();
        let mut left = count;
        while left > 0 && !self.session.out().is_empty() {
            match self.write_piece(left) {
                Ok(written) => left -= written,
                Err(fault) => {
                    self.written.truncate(before);
                    return Err(fault);
                }
            }
        }
        self.looked = None;
        Ok(())
    }

    /// Writes bytes of the piece that is sent next, at most this many. Where memory is refused nothing has changed.
    fn write_piece(&mut self, most: u64) -> Result<u64, Fault>
        ensures ok { IfOk result (λ count. WritesSome self.old self.new count × (count ≤ most)) }
        ensures some { IfOk result (λ count.
            0 < most → 0 < length self.old.session.piece → 0 < count) }
        ensures err { IfErr result (λ fault. (fault ≡ Memory) × (self.new ≡ self.old)) }
    {
        let piece = self.session.out();
        let count = most.min(piece.len() as u64) as usize;
        if self.written.extend_from_slice(&piece[..count]).is_err() {
            return Err(Fault::Memory);
        }
        self.session.sent(count);
        Ok(count as u64)
    }
}
