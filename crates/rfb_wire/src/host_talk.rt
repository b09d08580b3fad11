//! A host's handshake, field by field.

ghost use Rattle.std.specs.Prelude.{◌≡◌, ℕ, List, Option, is_some};
ghost use Rattle.rfb_wire.specs.Handshake.{chosen};

use crate::host_field::{
    COUNT_LEN, FORMAT_LEN, MOST_KEPT, NUMBER_LEN, SIZE_LEN, count_in, is_accepted, is_size, kept,
    number_in, size_at,
};
use crate::joined::Joined;
use crate::security_type::{NONE, VNC_AUTHENTICATION};
use crate::version::{VERSION, VERSION_LEN};
use arrayvec::ArrayVec;
use fault::{Fault, Reason};
use vnc_auth::{CHALLENGE_LEN, Password};

/// Shared-flag 1, by which a client asks that others stay connected (RFC 6143, 7.3.1).
const SHARED: u8 = 1;

/// The most bytes that are said to a host in a handshake: the version, the choice of a security type, the answer to a
/// challenge, and the shared-flag (RFC 6143, 7.1.1, 7.1.2, 7.2.2 and 7.3.1).
const MOST_SAID: usize = 30;

/// Which field of the handshake is being read, or how it ended.
#[derive(Clone, Copy)]
pub(crate) enum Stage {
    /// The version that the host offers (RFC 6143, 7.1.1).
    Version,
    /// How many security types it has (7.1.2).
    TypeCount,
    /// The length of the reason, where the host offers no security type (7.1.2).
    ReasonLength,
    /// The reason, as much of it as is kept.
    Reason,
    /// Its security types (7.1.2).
    Types,
    /// The challenge of VNC Authentication, where that type was chosen (7.2.2).
    Challenge,
    /// The outcome of the handshake, SecurityResult (7.1.3).
    SecurityResult,
    /// The size of its screen, first in ServerInit (7.3.2).
    Size,
    /// The host's pixel format, which is ignored.
    Format,
    /// The length of the host's name.
    NameLength,
    /// The name, as much of it as is kept.
    Name,
    /// What is left of a name that is too long to be kept.
    Rest,
    /// The handshake is whole.
    Joined,
    /// The version isn't 3.8 or later.
    BadVersion,
    /// The host offers no security type. The field holds the reason.
    Refused,
    /// No security type among them can be chosen.
    NoNone,
    /// SecurityResult isn't OK.
    Failed,
    /// The screen isn't 1 to 4096 pixels each way.
    BadScreen,
}

impl Stage {
    ghost use Rattle.std.specs.Prelude.{◌≡◌};
    ghost use Rattle.rfb_wire.specs.Joining.{is_open};

    /// Whether a byte is wanted.
    fn is_open(&self) -> bool
        ensures { result ≡ is_open self.now }
    {
        match self {
            Stage::Joined
            | Stage::BadVersion
            | Stage::Refused
            | Stage::NoNone
            | Stage::Failed
            | Stage::BadScreen => false,
            _ => true,
        }
    }
}

/// The security type that is chosen of those that a host offers, if there is one: None before VNC Authentication, which
/// takes a password.
fn chosen(types: &[u8], has_password: bool) -> Option<u8>
    ensures { (password : Option (List ℕ)) → is_some password ≡ has_password
        → result ≡ chosen password types.now }
{
    if types.contains(&NONE) {
        Some(NONE)
    } else if has_password && types.contains(&VNC_AUTHENTICATION) {
        Some(VNC_AUTHENTICATION)
    } else {
        None
    }
}

/// A host's handshake in mid-course.
#[derive(Drop)]
pub(crate) struct HostTalk {
    pub(crate) stage: Stage,
    /// The bytes of the field that have come.
    pub(crate) field: ArrayVec<u8, MOST_KEPT>,
    /// How many bytes that field has.
    pub(crate) wanted: usize,
    /// The width of the host's screen in pixels, once it is told.
    pub(crate) w: u64,
    /// The height of the host's screen in pixels, once it is told.
    pub(crate) h: u64,
    /// How many bytes of the name are left that aren't kept.
    pub(crate) rest: u32,
    /// The host's password, if it is known.
    pub(crate) password: Option<Password>,
    /// What must have been said by now.
    pub(crate) said: ArrayVec<u8, MOST_SAID>,
    /// How many bytes of it were sent.
    pub(crate) sent: usize,
}

impl HostTalk {
    ghost use Rattle.std.specs.Prelude.{◌≡◌, ◌+◌, ◌-◌, ◌≤◌, ◌==◌, if◌then◌else◌, [], ◌∷◌, ◌++◌, true, length};
    ghost use Rattle.byte_reading.specs.Reading.{wants_more, fault_of, whole_of};
    ghost use Rattle.rfb_wire.specs.declared.host_field.TheConstants.{COUNT_LEN, NUMBER_LEN, SIZE_LEN};
    ghost use Rattle.rfb_wire.specs.declared.version.TheConstants.{VERSION_LEN};
    ghost use Rattle.rfb_wire.specs.declared.host_talk.TheConstants.{MOST_SAID};
    ghost use Rattle.vnc_auth.specs.declared.challenge.TheConstants.{CHALLENGE_LEN};
    ghost use Rattle.vnc_auth.specs.Answer.{answer_of};
    ghost use Rattle.rfb_wire.specs.Joining.{ahead, is_field, FitsStage, SaysWithin, IsSound, IsJudged, GoesOnAlike, IsSameTalk, Steps};

    /// A handshake of which nothing has come.
    pub(crate) fn new(password: Option<Password>) -> HostTalk
        ensures { result ≡ record {
          stage = Stage.Version;
          field = record { items = [] };
          wanted = VERSION_LEN;
          w = 0;
          h = 0;
          rest = 0;
          password = password;
          said = record { items = [] };
          sent = 0;
        } }
    {
        HostTalk {
            stage: Stage::Version,
            field: ArrayVec::new(),
            wanted: VERSION_LEN,
            w: 0,
            h: 0,
            rest: 0,
            password,
            said: ArrayVec::new(),
            sent: 0,
        }
    }

    /// Whether a byte is wanted.
    pub(crate) fn wants_more(&self) -> bool
        requires { IsSound self.now }
        ensures { result ≡ wants_more (ahead self.now) }
    {
        self.stage.is_open()
    }

    /// The fault at which it stands, if there is one.
    pub(crate) fn fault(&self) -> Option<Fault>
        requires { IsSound self.now }
        ensures { result ≡ fault_of (ahead self.now) }
    {
        match self.stage {
            Stage::BadVersion => Some(Fault::BadVersion),
            Stage::Refused => Some(Fault::HostRefused(Reason::new(self.field.as_slice()))),
            Stage::NoNone => Some(Fault::NoNone),
            Stage::Failed => Some(Fault::SecurityFailed),
            Stage::BadScreen => Some(Fault::BadScreen),
            _ => None,
        }
    }

    /// What the host told, where its handshake is whole.
    pub(crate) fn joined(&self) -> Option<Joined>
        requires { IsSound self.now }
        ensures { result ≡ whole_of (ahead self.now) }
    {
        match self.stage {
            Stage::Joined => Some(Joined {
                w: self.w,
                h: self.h,
                name: kept(self.field.as_slice()),
            }),
            _ => None,
        }
    }

    /// Goes on to a field of this many bytes.
    fn begin(&mut self, stage: Stage, wanted: usize)
        ensures { self.new
            ≡ record self.old { stage = stage; wanted = wanted; field = record { items = [] } } }
    {
        self.field.clear();
        self.stage = stage;
        self.wanted = wanted;
    }

    /// These bytes have to be said next.
    fn say(&mut self, bytes: &[u8])
        requires { length self.old.said.items + length bytes.now ≤ MOST_SAID }
        ensures { self.new
            ≡ record self.old { said = record { items = self.old.said.items ++ bytes.now } } }
    {
        // There is room for all that is said.
        let _ = self.said.try_extend_from_slice(bytes);
    }

    /// Judges the version. After one from 3.8 on the version is answered, and the security types are read.
    fn judge_version(&mut self)
        requires stage { self.old.stage ≡ Stage.Version }
        requires whole { length self.old.field.items ≡ VERSION_LEN }
        requires says { SaysWithin self.old }
        ensures { IsJudged self.old self.new }
    {
        if is_accepted(self.field.as_slice()) {
            self.say(&VERSION);
            self.begin(Stage::TypeCount, COUNT_LEN);
        } else {
            self.stage = Stage::BadVersion;
        }
    }

    /// Judges the number of security types. After 0 a reason is read, and otherwise the types.
    fn judge_type_count(&mut self)
        requires stage { self.old.stage ≡ Stage.TypeCount }
        requires whole { length self.old.field.items ≡ COUNT_LEN }
        requires says { SaysWithin self.old }
        ensures { IsJudged self.old self.new }
    {
        let count = count_in(self.field.as_slice());
        if count == 0 {
            self.begin(Stage::ReasonLength, NUMBER_LEN);
        } else {
            self.begin(Stage::Types, usize::from(count));
        }
    }

    /// Reads as much of a reason as is kept.
    fn judge_reason_length(&mut self)
        requires stage { self.old.stage ≡ Stage.ReasonLength }
        requires whole { length self.old.field.items ≡ NUMBER_LEN }
        requires says { SaysWithin self.old }
        ensures { IsJudged self.old self.new }
    {
        let kept = number_in(self.field.as_slice()).min(MOST_KEPT as u32) as usize;
        self.begin(Stage::Reason, kept);
        if kept == 0 {
            self.stage = Stage::Refused;
        }
    }

    /// Judges the security types: one of them has to be chosen. After VNC Authentication its challenge is read.
    fn judge_types(&mut self)
        requires stage { self.old.stage ≡ Stage.Types }
        requires whole { length self.old.field.items ≡ self.old.wanted }
        requires says { SaysWithin self.old }
        ensures { IsJudged self.old self.new }
    {
        match chosen(self.field.as_slice(), self.password.is_some()) {
            Some(NONE) => {
                self.say(&[NONE]);
                self.begin(Stage::SecurityResult, NUMBER_LEN);
            }
            Some(kind) => {
                self.say(&[kind]);
                self.begin(Stage::Challenge, CHALLENGE_LEN);
            }
            None => self.stage = Stage::NoNone,
        }
    }

    /// The answer to the challenge that was read, which is kept nowhere but in what is said.
    fn answer(&self, password: &Password) -> [u8; CHALLENGE_LEN]
        requires { length self.now.field.items ≡ CHALLENGE_LEN }
        ensures { result ≡ answer_of password.now self.now.field.items }
    {
        let mut challenge = [0; CHALLENGE_LEN];
        challenge.copy_from_slice(self.field.as_slice());
        password.answer(&challenge)
    }

    /// Answers the challenge. It is asked only where there is a password.
    fn judge_challenge(&mut self)
        requires stage { self.old.stage ≡ Stage.Challenge }
        requires whole { length self.old.field.items ≡ CHALLENGE_LEN }
        requires says { SaysWithin self.old }
        ensures { IsJudged self.old self.new }
    {
        if let Some(password) = self.password {
            let answer = self.answer(&password);
            self.say(&answer);
        }
        self.begin(Stage::SecurityResult, NUMBER_LEN);
    }

    /// Judges SecurityResult: 0 is OK. After that a shared session is asked for.
    fn judge_outcome(&mut self)
        requires stage { self.old.stage ≡ Stage.SecurityResult }
        requires whole { length self.old.field.items ≡ NUMBER_LEN }
        requires says { SaysWithin self.old }
        ensures { IsJudged self.old self.new }
    {
        if number_in(self.field.as_slice()) == 0 {
            self.say(&[SHARED]);
            self.begin(Stage::Size, SIZE_LEN);
        } else {
            self.stage = Stage::Failed;
        }
    }

    /// Judges the size: width and height together.
    fn judge_size(&mut self)
        requires stage { self.old.stage ≡ Stage.Size }
        requires whole { length self.old.field.items ≡ SIZE_LEN }
        requires says { SaysWithin self.old }
        ensures { IsJudged self.old self.new }
    {
        let field = self.field.as_slice();
        let (w, h) = (size_at(field, 0), size_at(field, 2));
        if is_size(w) && is_size(h) {
            self.w = u64::from(w);
            self.h = u64::from(h);
            self.begin(Stage::Format, FORMAT_LEN);
        } else {
            self.stage = Stage::BadScreen;
        }
    }

    /// Reads as much of a name as is kept; the rest is read past.
    fn judge_name_length(&mut self)
        requires stage { self.old.stage ≡ Stage.NameLength }
        requires whole { length self.old.field.items ≡ NUMBER_LEN }
        requires says { SaysWithin self.old }
        ensures { IsJudged self.old self.new }
    {
        let length = number_in(self.field.as_slice());
        let kept = length.min(MOST_KEPT as u32);
        self.rest = length - kept;
        self.begin(Stage::Name, kept as usize);
        if kept == 0 {
            self.stage = Stage::Joined;
        }
    }

    /// Judges the field that is whole, and goes on to the next.
    fn judge(&mut self)
        requires field { is_field self.old.stage ≡ true }
        requires fits { FitsStage self.old.stage self.old.wanted self.old.rest
            (length self.old.field.items) }
        requires whole { length self.old.field.items ≡ self.old.wanted }
        requires says { SaysWithin self.old }
        ensures { IsJudged self.old self.new }
    {
        match self.stage {
            Stage::Version => self.judge_version(),
            Stage::TypeCount => self.judge_type_count(),
            Stage::ReasonLength => self.judge_reason_length(),
            Stage::Reason => self.stage = Stage::Refused,
            Stage::Types => self.judge_types(),
            Stage::Challenge => self.judge_challenge(),
            Stage::SecurityResult => self.judge_outcome(),
            Stage::Size => self.judge_size(),
            Stage::Format => self.begin(Stage::NameLength, NUMBER_LEN),
            Stage::NameLength => self.judge_name_length(),
            Stage::Name if self.rest == 0 => self.stage = Stage::Joined,
            Stage::Name => self.stage = Stage::Rest,
            _ => {}
        }
    }

    /// Reads past a byte of a name that is too long to be kept.
    fn pass(&mut self)
        requires stage { self.old.stage ≡ Stage.Rest }
        requires sound { IsSound self.old }
        ensures { self.new ≡ record self.old {
          rest = self.old.rest - 1;
          stage = (if self.old.rest == 1 then Stage.Joined else Stage.Rest);
        } }
    {
        self.rest -= 1;
        if self.rest == 0 {
            self.stage = Stage::Joined;
        }
    }

    /// Takes a byte of a field, and judges the field where it is whole.
    fn take(&mut self, byte: u8)
        requires field { is_field self.old.stage ≡ true }
        requires sound { IsSound self.old }
        ensures sound { IsSound self.new }
        ensures alike { GoesOnAlike (record self.old {
          field = record { items = self.old.field.items ++ byte ∷ [] };
        }) self.new }
        ensures same { IsSameTalk self.old self.new }
    {
        self.field.push(byte);
        if self.field.len() == self.wanted {
            self.judge();
        }
    }

    /// Takes a byte.
    pub(crate) fn step(&mut self, byte: u8)
        requires sound { IsSound self.old }
        requires wants { wants_more (ahead self.old) ≡ true }
        ensures sound { IsSound self.new }
        ensures steps { Steps self.old self.new byte }
        ensures same { IsSameTalk self.old self.new }
    {
        match self.stage {
            Stage::Rest => self.pass(),
            _ => self.take(byte),
        }
    }
}
