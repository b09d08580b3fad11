//! What the port for machines answers.

ghost use Rattle.std.specs.Prelude.{◌≡◌, ◌∷◌, [], ◌++◌, OnOk, IsTrue};
ghost use Rattle.http.specs.FieldValue.{is_visible_text};
ghost use Rattle.http.specs.Request.{head_of};
ghost use Rattle.http_server.specs.Response.{IsBlank, IsResponse, fields_of};
ghost use Rattle.metrics_site.specs.Replies.{Replies, always, health_reply, metrics_reply, reply_for, status_for};

use bytes::Bytes;
use http::{HeaderName, HeaderValue, Request, StatusCode, header};
use http_server::{Response, Service};
use roles::Role;
use run_reports::{Counters, Health, health_of, health_word, metrics_text};
use std::alloc::{AllocError, Global};

/// A run as it stood when a reader connected.
#[derive(Drop)]
pub struct Watched {
    alloc: Global,
    counters: Counters,
    is_drained: bool,
}

/// Adds a field with a text as its value.
fn add(response: &mut Response, name: HeaderName, value: &'static str) -> Result<(), AllocError>
    requires { IsTrue (is_visible_text value.now) }
    ensures fields { OnOk result
        (fields_of response.new ≡ fields_of response.old ++ (name, value.now) ∷ []) }
    ensures status { response.new.status ≡ response.old.status }
    ensures body { response.new.body ≡ response.old.body }
{
    response.add_header(name, HeaderValue::from_static(value))
}

/// Fills in a status, and the fields of every answer: no cache keeps it, and the connection ends with it.
fn begin(response: &mut Response, status: StatusCode) -> Result<(), AllocError>
    requires { IsBlank response.old }
    ensures { OnOk result (IsResponse status always [] response.new) }
{
    response.status = status;
    add(response, header::CACHE_CONTROL, "no-store")?;
    add(response, header::CONNECTION, "close")
}

/// The status of a health: 200, or 503 where no viewer would be served (RFC 9110, sections 15.3.1 and 15.6.4).
fn status_of(health: Health) -> StatusCode
    ensures { result ≡ status_for health }
{
    match health {
        Health::Ready => StatusCode::OK,
        Health::NoHost | Health::Drained | Health::Full => StatusCode::SERVICE_UNAVAILABLE,
    }
}

impl Watched {
    ghost use Rattle.std.specs.Prelude.{◌≡◌, OnOk};
    ghost use Rattle.http.specs.Request.{head_of};
    ghost use Rattle.http_server.specs.Response.{IsBlank};
    ghost use Rattle.metrics_site.specs.Replies.{Replies, health_reply, metrics_reply, reply_for};

    /// A run with these numbers, whose doors an operator has drained or hasn't.
    pub fn new(alloc: Global, counters: Counters, is_drained: bool) -> Watched
        ensures { (result.counters ≡ counters) × (result.is_drained ≡ is_drained) }
    {
        Watched {
            alloc,
            counters,
            is_drained,
        }
    }

    fn send_metrics(&self, response: &mut Response) -> Result<(), AllocError>
        requires { IsBlank response.old }
        ensures { OnOk result (Replies (metrics_reply self.now) response.new) }
    {
        let text = metrics_text(self.alloc, &self.counters)?;
        begin(response, StatusCode::OK)?;
        add(
            response,
            header::CONTENT_TYPE,
            "text/plain; version=0.0.4; charset=utf-8",
        )?;
        response.body.push(Bytes::from_string(text)?)
    }

    fn send_health(&self, role: Option<Role>, response: &mut Response) -> Result<(), AllocError>
        requires { IsBlank response.old }
        ensures { OnOk result (Replies (health_reply self.now role) response.new) }
    {
        let health = health_of(&self.counters, self.is_drained, role);
        begin(response, status_of(health))?;
        add(response, header::CONTENT_TYPE, "text/plain; charset=utf-8")?;
        let word = health_word(health);
        response
            .body
            .push(Bytes::copy_from_slice(self.alloc, word.as_bytes())?)
    }

    /// Fills in the answer to a request. It fails where memory is refused.
    pub fn answer(
        &self,
        request: &Request<Bytes>,
        response: &mut Response,
    ) -> Result<(), AllocError>
        requires { IsBlank response.old }
        ensures { OnOk result (Replies (reply_for self.now (head_of request.now)) response.new) }
    {
        let method = request.method().as_str();
        if method != "GET" && method != "HEAD" {
            begin(response, StatusCode::METHOD_NOT_ALLOWED)?;
            return add(response, header::ALLOW, "GET, HEAD");
        }
        let path = request.uri().path();
        if path == "/metrics" {
            self.send_metrics(response)
        } else if path == "/health" {
            self.send_health(None, response)
        } else if path == "/health/full" {
            self.send_health(Some(Role::Full), response)
        } else if path == "/health/view" {
            self.send_health(Some(Role::View), response)
        } else {
            begin(response, StatusCode::NOT_FOUND)
        }
    }
}

impl Service for &Watched {
    ghost use Rattle.std.specs.Prelude.{◌≡◌};
    ghost use Rattle.http.specs.Request.{head_of};
    ghost use Rattle.metrics_site.specs.Replies.{Replies, reply_for};

    ghost answers = { λ old request response new.
        Replies (reply_for old.now (head_of request)) response × (new ≡ old) };

    fn call(
        &mut self,
        request: &Request<Bytes>,
        response: &mut Response,
    ) -> Result<(), AllocError> {
        self.answer(request, response)
    }
}
