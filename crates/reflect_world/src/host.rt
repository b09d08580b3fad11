//! The host of a world: its bytes, and the updates that they bring.

ghost use Rattle.std.specs.Prelude.{◌≡◌, ℕ, ◌<◌, [], ◌∷◌, ◌++◌, List, length, Option, Some, None, Ok, Err, IfOk, IfErr, IfSome, OnOk};
ghost use Rattle.fault.specs.declared.kinds.Fault.TheVariants.{Memory};
ghost use Rattle.raster.specs.Size.{IsScreenSize};
ghost use Rattle.raster.specs.Update.{Update};
ghost use Rattle.painter.specs.Patch.{SizedUpdate};
ghost use Rattle.reflect_world.specs.Host.{BeginsNext, CanRead, HasReadTo, HostStands, IsHost, IsSameHost, ReadsMessage, ReadsOn, patch_in};

use crate::unread::Unread;
use fault::Fault;
use host_decoder::{HostEvent, HostScreen};
use painter::Patch;
use std::alloc::Global;
use std::marker::Model;

/// The bytes of a host, which are read update by update, and an update, if there is one, that was read and couldn't be
/// put.
#[derive(Drop)]
pub(crate) struct Host {
    screen: HostScreen,
    unread: Unread,
    waiting: Option<Patch>,
}

impl Model for Host {
    ghost use Rattle.reflect_world.specs.Host.{HostSide, IsHost};

    ghost Value = { HostSide };

    ghost view = { λ h. record {
      decoder = h.screen.decoder;
      painter = h.screen.painter;
      unread = h.unread;
      waiting = h.waiting;
    } };

    ghost invariant = { λ h. IsHost (record {
      decoder = h.screen.decoder;
      painter = h.screen.painter;
      unread = h.unread;
      waiting = h.waiting;
    }) };
}

impl Host {
    /// A host over a black screen that has sent nothing. It fails where memory is refused (`Memory`).
    pub(crate) fn new(alloc: Global, width: u64, height: u64) -> Result<Self, Fault>
        requires { IsScreenSize width height }
        ensures size { IfOk result (λ host.
            (host.decoder.width ≡ width) × (host.decoder.height ≡ height)) }
        ensures stands { IfOk result (λ host. HostStands [] [] [] host) }
        ensures err { IfErr result (λ fault. fault ≡ Memory) }
    {
        Ok(Host {
            screen: HostScreen::new(alloc, width, height)?,
            unread: Unread::new(alloc),
            waiting: None,
        })
    }

    /// Keeps bytes that come from the host. Where memory is refused (`Memory`) nothing has changed.
    pub(crate) fn add(&mut self, bytes: &[u8]) -> Result<(), Fault>
        ensures same { IsSameHost self.old self.new }
        ensures ok { OnOk result ((past : List Update) (all : List ℕ) (us : List Update)
            → HostStands past all us self.old
            → HostStands past (all ++ bytes.now) us self.new) }
        ensures err { IfErr result (λ fault. (fault ≡ Memory) × (self.new ≡ self.old)) }
    {
        self.unread.add(bytes)
    }

    /// The next update, where it has come whole. It fails with the fault at which the bytes stand, or where memory is
    /// refused (`Memory`); after that it reads nothing more.
    pub(crate) fn next_patch(&mut self) -> Result<Option<Patch>, Fault>
        requires { CanRead self.old }
        ensures same { IsSameHost self.old self.new }
        ensures none { self.new.waiting ≡ None }
        ensures size { IfOk result (λ found. IfSome found (λ patch.
            (patch.width ≡ self.old.decoder.width) × (patch.height ≡ self.old.decoder.height))) }
        ensures ok { IfOk result (λ found. ReadsOn self.old self.new (Ok found)) }
        ensures err { IfErr result (λ fault. ReadsOn self.old self.new (Err fault)) }
    {
        if let Some(patch) = self.waiting.take() {
            return Ok(Some(patch));
        }
        'messages: loop {
            match self.read_one()? {
                None => return Ok(None),
                Some(HostEvent::Paint(patch)) => return Ok(Some(patch)),
                Some(HostEvent::Bell(patch)) => return Ok(Some(patch)),
                Some(HostEvent::Cut(patch)) => return Ok(Some(patch)),
                Some(HostEvent::Map) => {}
                Some(HostEvent::LongCut) => {}
            }
        }
    }

    /// Keeps an update that was read and couldn't be put. It is the next update again.
    pub(crate) fn keep(&mut self, patch: Patch)
        requires none { self.old.waiting ≡ None }
        requires size { (patch.width ≡ self.old.decoder.width)
            × (patch.height ≡ self.old.decoder.height) }
        ensures same { IsSameHost self.old self.new }
        ensures stands { (past : List Update) (bytes : List ℕ) (us : List Update)
            → HasReadTo past bytes (us ++ patch.update ∷ []) self.old
            → HasReadTo past bytes us self.new }
    {
        self.waiting = Some(patch);
    }

    /// The next host begins: its bytes are read from their first on, and the screen turns black by an update that waits
    /// to be put. It fails where memory is refused (`Memory`), and then nothing has changed.
    pub(crate) fn next_host(&mut self) -> Result<(), Fault>
        requires none { self.old.waiting ≡ None }
        ensures same { IsSameHost self.old self.new }
        ensures ok { OnOk result (BeginsNext self.old self.new) }
        ensures err { IfErr result (λ fault. (fault ≡ Memory) × (self.new ≡ self.old)) }
    {
        let patch = self.screen.painter.switch()?;
        self.screen.decoder.next_host();
        self.unread.clear();
        self.waiting = Some(patch);
        Ok(())
    }

    /// Reads on up to the end of a message, or to the end of the bytes. After a fault there is nothing to be read.
    fn read_one(&mut self) -> Result<Option<HostEvent>, Fault>
        requires none { self.old.waiting ≡ None }
        requires stands { CanRead self.old }
        ensures same { IsSameHost self.old self.new }
        ensures none { self.new.waiting ≡ None }
        ensures size { IfOk result (λ found. IfSome found (λ event.
            IfSome (patch_in event) (λ patch.
            (patch.width ≡ self.old.decoder.width) × (patch.height ≡ self.old.decoder.height)))) }
        ensures message { IfOk result (λ found. IfSome found (λ event.
            ReadsMessage self.old self.new (patch_in event))) }
        ensures shorter { IfOk result (λ found. IfSome found (λ event.
            length self.new.unread < length self.old.unread)) }
        ensures end { result ≡ Ok None → ReadsOn self.old self.new (Ok None) }
        ensures err { IfErr result (λ fault. ReadsOn self.old self.new (Err fault)) }
    {
        let screen = &mut self.screen;
        match screen
            .decoder
            .feed(&mut screen.painter, self.unread.bytes())
        {
            Ok(used) => {
                self.unread.take(used);
                Ok(screen.decoder.whole())
            }
            Err(fault) => {
                self.unread.clear();
                Err(fault)
            }
        }
    }
}
