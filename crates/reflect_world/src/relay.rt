//! Inputs on their way to the host.

ghost use Rattle.std.specs.Prelude.{◌≡◌, ◌+◌, ◌<◌, ◌≤◌, List, [], ◌∷◌, ◌++◌, length, map, IfOk, OnOk, IfErr};
ghost use Rattle.fault.specs.declared.kinds.Fault.TheVariants.{Memory};
ghost use Rattle.roles.specs.Held.{input_in};
ghost use Rattle.rfb_wire.specs.ClientMessage.{longest_text};
ghost use Rattle.rfb_wire.specs.Writing.{client_text_bytes};
ghost use Rattle.roles.specs.Strokes.{StrokesStand, Taken, dropped, input_from};
ghost use Rattle.reflect_world.specs.Relay.{TakesFirst, Tells, inputs_told, spelled};
ghost use Rattle.reflect_world.specs.Schedule.{taken_from};
ghost use Rattle.roles.specs.Spelling.{input_bytes};

use crate::scene::PLACES;
use fault::Fault;
use rfb_wire::{TEXT_HEAD_LEN, write_client_text_head, write_key, write_pointer};
use roles::{Input, Strokes};
use std::alloc::Global;
use std::marker::Model;

/// An input, and the number of the viewer that it came from.
#[derive(Drop)]
pub(crate) struct RelayedInput {
    viewer: u64,
    input: Input,
}

/// The inputs of all viewers, in the order in which they came; how many of them were taken for the host; which of these
/// pass to the host; and the bytes that it was sent.
#[derive(Drop)]
pub(crate) struct Relay {
    entries: Vec<RelayedInput>,
    taken: usize,
    strokes: Strokes,
    sent: Vec<u8>,
}

impl Model for Relay {
    ghost use Rattle.std.specs.Prelude.{◌≡◌, ◌≤◌, ◌-◌, drop, length, map, take, vec_capacity, vec_len};
    ghost use Rattle.reflect_world.specs.Relay.{KeepsStrokes, RelaySide, inputs_told, relayed_in, spelled};

    ghost Value = { RelaySide };

    ghost view = { λ r. record {
      queue = drop r.taken (map relayed_in r.entries.items);
      taken = take r.taken (map relayed_in r.entries.items);
      spare = vec_capacity r.entries - vec_len r.entries;
    } };

    ghost invariant = { λ r. (r.taken ≤ length r.entries.items)
        × (r.sent.items ≡ spelled (inputs_told (take r.taken (map relayed_in r.entries.items))))
        × KeepsStrokes r.strokes (take r.taken (map relayed_in r.entries.items)) };
}

impl Relay {
    /// A relay with no input on its way, and none sent. It fails where memory is refused (`Memory`).
    pub(crate) fn new(alloc: Global) -> Result<Self, Fault>
        ensures ok { IfOk result (λ relay. (relay.queue ≡ []) × (relay.taken ≡ [])) }
        ensures err { IfErr result (λ fault. fault ≡ Memory) }
    {
        let strokes = Strokes::new(alloc, PLACES)?;
        Ok(Relay {
            entries: Vec::new(alloc),
            taken: 0,
            strokes,
            sent: Vec::new(alloc),
        })
    }

    /// How many inputs are in the queue.
    pub(crate) fn len(&self) -> u64
        ensures { result ≡ length self.now.queue }
    {
        (self.entries.len() - self.taken) as u64
    }

    /// All that the host was sent: the spellings of the inputs taken that pass, in order.
    pub(crate) fn sent(&self) -> &[u8]
        ensures { result.now ≡ spelled (inputs_told self.now.taken) }
    {
        self.sent.as_slice()
    }

    /// How many inputs of a viewer were dropped on their way to the host.
    pub(crate) fn dropped(&self, viewer: u64) -> u64
        requires { viewer < 65 }
        ensures { result ≡ dropped viewer (map taken_from self.now.taken) }
    {
        self.strokes.dropped(viewer)
    }

    /// Makes room for this many more inputs. Where memory is refused (`Memory`) nothing has changed.
    pub(crate) fn reserve(&mut self, more: usize) -> Result<(), Fault>
        ensures others { self.new ≡ record self.old { spare = self.new.spare } }
        ensures ok { OnOk result (more ≤ self.new.spare) }
        ensures err { IfErr result (λ fault. (fault ≡ Memory) × (self.new ≡ self.old)) }
    {
        match self.entries.reserve(more) {
            Ok(()) => Ok(()),
            Err(_) => Err(Fault::Memory),
        }
    }

    /// Adds an input of a viewer to the queue. There has to be room for it.
    pub(crate) fn push(&mut self, viewer: u64, input: Input)
        requires { 0 < self.old.spare }
        ensures queue { self.new.queue
            ≡ self.old.queue ++ record { viewer = viewer; input = input_in input } ∷ [] }
        ensures taken { self.new.taken ≡ self.old.taken }
        ensures spare { self.old.spare ≤ self.new.spare + 1 }
    {
        let Ok(()) = self.entries.push(RelayedInput { viewer, input }) else {
            unreachable!()
        };
    }

    /// Takes the input that has waited longest, if there is one. Where it passes, given the inputs taken before, its
    /// spelling goes to the host. Where memory is refused (`Memory`) nothing has changed.
    pub(crate) fn take(&mut self) -> Result<(), Fault>
        ensures ok { OnOk result (TakesFirst self.old self.new) }
        ensures err { IfErr result (λ fault. (fault ≡ Memory) × (self.new ≡ self.old)) }
    {
        if self.taken == self.entries.len() {
            return Ok(());
        }
        let entry = &self.entries[self.taken];
        tell(
            &mut self.strokes,
            entry.viewer,
            &entry.input,
            &mut self.sent,
        )?;
        self.taken += 1;
        Ok(())
    }
}

/// Adds the spelling of an input of a viewer, where the input passes, given those taken before. Where memory is refused
/// nothing has changed.
fn tell(strokes: &mut Strokes, viewer: u64, input: &Input, out: &mut Vec<u8>) -> Result<(), Fault>
    ensures ok { OnOk result ((taken : List Taken) → StrokesStand strokes.old taken
        → Tells taken (input_from viewer (input_in input.now)) strokes.new
        out.old.items out.new.items) }
    ensures counts { length strokes.new.counts ≡ length strokes.old.counts }
    ensures err { IfErr result (λ fault.
        (fault ≡ Memory) × (strokes.new ≡ strokes.old) × (out.new.items ≡ out.old.items)) }
{
    // The input is spelled first: once the strokes have it, no memory may be refused any longer.
    let before = out.len();
    spell(input, out)?;
    if !strokes.passes(viewer, input) {
        out.truncate(before);
    }
    Ok(())
}

/// Adds the spelling of an input. Where memory is refused nothing has changed.
fn spell(input: &Input, out: &mut Vec<u8>) -> Result<(), Fault>
    ensures ok { OnOk result (out.new.items ≡ out.old.items ++ input_bytes (input_in input.now)) }
    ensures err { IfErr result (λ fault. (fault ≡ Memory) × (out.new.items ≡ out.old.items)) }
{
    match input {
        Input::Key { down, key } => {
            let mut bytes = [0; 8];
            write_key(*down, *key, &mut bytes);
            add(&bytes, out)
        }
        Input::Pointer { mask, x, y } => {
            let mut bytes = [0; 6];
            write_pointer(*mask, *x, *y, &mut bytes);
            add(&bytes, out)
        }
        Input::Cut(text) => spell_text(text.as_slice(), out),
    }
}

/// Adds a ClientCutText: its header, and then the text.
fn spell_text(text: &[u8], out: &mut Vec<u8>) -> Result<(), Fault>
    requires { length text.now ≤ longest_text }
    ensures ok { OnOk result (out.new.items ≡ out.old.items ++ client_text_bytes text.now) }
    ensures err { IfErr result (λ fault. (fault ≡ Memory) × (out.new.items ≡ out.old.items)) }
{
    let before = out.len();
    let mut head = [0; TEXT_HEAD_LEN];
    write_client_text_head(text.len() as u32, &mut head);
    add(&head, out)?;
    match add(text, out) {
        Ok(()) => Ok(()),
        Err(fault) => {
            out.truncate(before);
            Err(fault)
        }
    }
}

fn add(bytes: &[u8], out: &mut Vec<u8>) -> Result<(), Fault>
    ensures ok { OnOk result (out.new.items ≡ out.old.items ++ bytes.now) }
    ensures err { IfErr result (λ fault. (fault ≡ Memory) × (out.new.items ≡ out.old.items)) }
{
    match out.extend_from_slice(bytes) {
        Ok(()) => Ok(()),
        Err(_) => Err(Fault::Memory),
    }
}
