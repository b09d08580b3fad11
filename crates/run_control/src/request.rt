//! The lines of requests.

ghost use Rattle.std.specs.Prelude.{◌≡◌, ◌≢◌, ◌<◌, ◌^◌, ◌==◌, ◌&&◌, ◌||◌, ℕ, IfSome, IfNone, length, nat_lt, slice_index};
ghost use Rattle.std.specs.Fmt.{decimal};
ghost use Rattle.std.specs.Net.Grammar.{IsSocketText};
ghost use Rattle.std.specs.Net.Socket.{socket_port};
ghost use Rattle.std.specs.declared.net.socket_addr.SocketAddr.{SocketAddr as Address};
ghost use Rattle.roles.specs.declared.role.Role.{Role as Roles};
ghost use Rattle.run_control.specs.Request.{IsInRange, Says, call_in};
ghost use Rattle.run_control.specs.declared.request.Request as declared;
ghost use Rattle.run_control.specs.declared.request.Request.TheVariants as request;

use roles::Role;
use std::net::SocketAddr;

/// The form in which an answer is written.
#[derive(Clone, Copy, Debug, PartialEq, Eq)]
pub enum StateForm {
    /// As lines that people read.
    Text,
    /// As one object of JSON.
    Json,
}

/// What is asked of a running reflector.
#[derive(Clone, Copy, Debug, PartialEq, Eq)]
pub enum Request {
    /// How the run stands: `state`, or `state json`.
    State(StateForm),
    /// That nobody is let in any more: `drain`. Viewers that have a place stay.
    Drain,
    /// That viewers are let in again: `undrain`.
    Undrain,
    /// That the viewer of this place leaves: `end PLACE`. Places are counted from 1.
    End(u64),
    /// That the host is left for the next one: `next`. Viewers stay.
    Next,
    /// That the viewer which listens at this address is connected to, and served in this role: `call ROLE IP:PORT`. The
    /// address has no name and a port other than 0.
    Call(Role, SocketAddr),
    /// That all viewers leave, and the run ends: `stop`.
    Stop,
}

impl Request {
    /// Reads a line, without its line feed. It answers `None` where the line is no request.
    pub fn read(line: &str) -> Option<Request>
        ensures says { IfSome result (λ request. IsInRange request × Says request line.now) }
        ensures none { IfNone result
            ((request : declared.Request) → IsInRange request → ¬ Says request line.now) }
    {
        match line {
            "state" => Some(Request::State(StateForm::Text)),
            "state json" => Some(Request::State(StateForm::Json)),
            "drain" => Some(Request::Drain),
            "undrain" => Some(Request::Undrain),
            "next" => Some(Request::Next),
            "stop" => Some(Request::Stop),
            _ => longer_request(line),
        }
    }
}

/// `end PLACE`: the viewer of this place is asked to leave.
fn end_request(line: &str) -> Option<Request>
    ensures found { IfSome result (λ request. IsInRange request × Says request line.now) }
    ensures none { IfNone result
        ((place : ℕ) → place < 2 ^ 64 → ¬ Says (request.End place) line.now) }
{
    let place = line.strip_prefix("end ")?;
    let place = number(place)?;
    Some(Request::End(place))
}

/// How a call in this role begins.
fn call_in(role: Role) -> &'static str
    ensures { result.now ≡ call_in role }
{
    match role {
        Role::Full => "call full ",
        Role::View => "call view ",
    }
}

/// `call full IP:PORT` or `call view IP:PORT`: the viewer that listens there is called in this role.
fn call_request(line: &str, role: Role) -> Option<Request>
    ensures found { IfSome result (λ request. IsInRange request × Says request line.now) }
    ensures none { IfNone result ((address : Address) → 0 < socket_port address
        → ¬ Says (request.Call role address) line.now) }
{
    let said = line.strip_prefix(call_in(role))?;
    let address = callable(said)?;
    Some(Request::Call(role, address))
}

/// A request of several words: `end PLACE`, or `call ROLE IP:PORT`.
#[tactic(auto, using(crate::proofs::Calls::in_neither_role))]
fn longer_request(line: &str) -> Option<Request>
    ensures found { IfSome result (λ request. IsInRange request × Says request line.now) }
    ensures no_end { IfNone result
        ((place : ℕ) → place < 2 ^ 64 → ¬ Says (request.End place) line.now) }
    ensures no_call { IfNone result ((role : Roles) (address : Address) → 0 < socket_port address
        → ¬ Says (request.Call role address) line.now) }
{
    if let Some(request) = end_request(line) {
        return Some(request);
    }
    if let Some(request) = call_request(line, Role::Full) {
        return Some(request);
    }
    call_request(line, Role::View)
}

/// The address that a text says, with a port at which somebody may listen.
#[tactic(auto, using(crate::proofs::Calls::no_port))]
fn callable(text: &str) -> Option<SocketAddr>
    ensures found { IfSome result (λ address.
        IsSocketText text.now address × (0 < socket_port address)) }
    ensures none { IfNone result
        ((address : Address) → 0 < socket_port address → ¬ IsSocketText text.now address) }
{
    let address = text.parse::<SocketAddr>().ok()?;
    if address.port() == 0 {
        return None;
    }
    Some(address)
}

/// Whether a text has a plus or a leading zero, which `parse` would take.
fn is_padded(text: &[u8]) -> bool
    ensures { result ≡ ((slice_index text.now 0 == 43)
        || ((slice_index text.now 0 == 48) && nat_lt 1 (length text.now))) }
{
    !text.is_empty() && (text[0] == b'+' || (text[0] == b'0' && text.len() > 1))
}

/// A number in decimal digits, without a sign and without leading zeros.
fn number(text: &str) -> Option<u64>
    ensures found { IfSome result (λ found. (found < 2 ^ 64) × (text.now ≡ decimal found)) }
    ensures none { IfNone result ((n : ℕ) → n < 2 ^ 64 → text.now ≢ decimal n) }
{
    if is_padded(text.as_bytes()) {
        return None;
    }
    text.parse::<u64>().ok()
}
