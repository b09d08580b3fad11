//! Makes the sessions of a place's viewers.

ghost use Rattle.std.specs.Prelude.{◌≡◌, ◌≤◌, length, true, None, Some, IfOk, IfErr};
ghost use Rattle.fault.specs.declared.kinds.Fault.TheVariants.{Memory};
ghost use Rattle.raster.specs.Size.{IsScreenSize};
ghost use Rattle.viewer_session.specs.Session.{Stands};
ghost use Rattle.viewer_session.specs.Viewer.{Setup, new_viewer};
ghost use Rattle.reflector.specs.Visits.{name_of};

use fault::Fault;
use raster::Size;
use rfb_wire::Joined;
use roles::Role;
use std::alloc::Global;
use viewer_session::{AnswerForm, Session};

/// The name of a screen whose host has none. A viewer is told at least one byte.
const NO_NAME: &[u8] = b"reflectord";

/// The size and the name of the screen that the viewers of a place are shown, their role, the form in which they are
/// answered, and the first of the host's sizes, of which they are told.
#[derive(Drop)]
pub struct SessionMaker {
    alloc: Global,
    pub(crate) width: u64,
    pub(crate) height: u64,
    pub(crate) name: Vec<u8>,
    pub(crate) role: Role,
    pub(crate) form: AnswerForm,
    pub(crate) host: Size,
    pub(crate) ghost size: { IsScreenSize width height },
    pub(crate) ghost named: { (1 ≤ length name.items) × (length name.items ≤ 255) },
}

impl SessionMaker {
    /// A maker of sessions, whose viewers are told this screen. It fails where memory for the name is refused
    /// (`Memory`).
    pub(crate) fn new(
        alloc: Global,
        screen: &Joined,
        role: Role,
        form: AnswerForm,
        host: Size,
    ) -> Result<SessionMaker, Fault>
        requires { IsScreenSize screen.now.w screen.now.h }
        ensures size { IfOk result (λ maker.
            (maker.width ≡ screen.now.w) × (maker.height ≡ screen.now.h)) }
        ensures named { IfOk result (λ maker.
            (maker.role ≡ role) × (maker.name.items ≡ name_of screen.now.name)) }
        ensures formed { IfOk result (λ maker. (maker.form ≡ form) × (maker.host ≡ host)) }
        ensures err { IfErr result (λ fault. fault ≡ Memory) }
    {
        let name = screen.name.as_slice();
        let name = if name.is_empty() { NO_NAME } else { name };
        let name = name.to_vec(alloc)?;
        Ok(SessionMaker {
            alloc,
            width: screen.w,
            height: screen.h,
            name,
            role,
            form,
            host,
        })
    }

    /// A viewer's session, which begins with its hello. It fails where memory is refused (`Memory`).
    pub(crate) fn open(&self) -> Result<Session, Fault>
        ensures size { IfOk result (λ session.
            (session.width ≡ self.now.width) × (session.height ≡ self.now.height)) }
        ensures uncut { IfOk result (λ session. session.asked.last ≡ None) }
        ensures stands { IfOk result (λ session. (s : Setup) → s.w ≡ self.now.width
            → s.h ≡ self.now.height → s.name ≡ self.now.name.items → s.form ≡ self.now.form
            → s.host ≡ Some self.now.host → Stands s session (new_viewer self.now.role true)) }
        ensures err { IfErr result (λ fault. fault ≡ Memory) }
    {
        Session::open(
            self.alloc,
            self.width,
            self.height,
            self.name.as_slice(),
            self.role,
            self.form,
            Some(self.host),
        )
    }
}
