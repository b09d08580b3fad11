//! Who may open a link.

ghost use Rattle.std.specs.Prelude.{◌≡◌};
ghost use Rattle.web_site.specs.Listed.{lists};

use http::{HeaderMap, HeaderValue, header};

/// The hosts and the origins under which the port is known, each as a browser spells it: `lecture.example:8443` and
/// `https://lecture.example:8443`.
///
/// Any page that a browser shows may try to open a WebSocket to any port that the browser reaches, 127.0.0.1 too. The
/// browser says which origin the page has, and a page can't change that (RFC 6455, section 10.2). So only pages of the
/// listed origins may open a link. The host has to be listed, too, since anyone can make a name lead to 127.0.0.1.
#[derive(Drop)]
pub struct Admission {
    /// The values that a Host field may have.
    pub hosts: Vec<String>,
    /// The values that an Origin field may have.
    pub origins: Vec<String>,
}

/// Whether this text is one of the list.
fn is_listed(texts: &[String], text: &[u8]) -> bool
    ensures { result ≡ lists texts.now text.now }
{
    texts.iter().any(|one| one.as_bytes() == text)
}

impl Admission {
    ghost use Rattle.std.specs.Prelude.{◌≡◌, codes};
    ghost use Rattle.http.specs.HeaderMap.{get_all};
    ghost use Rattle.web_site.specs.Admissions.{may_open, comes_to, comes_from};

    /// Whether a request with these fields may open a link: it names exactly one Host, which is listed, and no Origin
    /// that isn't listed. A client that isn't a browser names no Origin.
    pub fn may_open(&self, fields: &HeaderMap<HeaderValue>) -> bool
        ensures { result ≡ may_open self.now fields.now }
    {
        self.comes_to(fields) && self.comes_from(fields)
    }

    fn comes_to(&self, fields: &HeaderMap<HeaderValue>) -> bool
        ensures { result ≡ comes_to self.now (get_all fields.now (codes "host")) }
    {
        let mut hosts = fields.get_all(&header::HOST).iter();
        match hosts.next() {
            Some(host) => hosts.next().is_none()
                && is_listed(self.hosts.as_slice(), host.as_bytes()),
            None => false,
        }
    }

    fn comes_from(&self, fields: &HeaderMap<HeaderValue>) -> bool
        ensures { result ≡ comes_from self.now (get_all fields.now (codes "origin")) }
    {
        let mut origins = fields.get_all(&header::ORIGIN).iter();
        origins.all(|origin| is_listed(self.origins.as_slice(), origin.as_bytes()))
    }
}
