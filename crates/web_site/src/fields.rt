//! Reads the fields of a request.

ghost use Rattle.std.specs.Prelude.{◌≡◌, option_map};
ghost use Rattle.http.specs.HeaderMap.{get_all};
ghost use Rattle.websocket.specs.Headers.{has_token, eq_ignore_case};
ghost use Rattle.web_site.specs.Openings.{only, names};

use http::{HeaderMap, HeaderName, HeaderValue};

/// The value of a field, where the field is there exactly once.
pub(crate) fn only<'r>(fields: &'r HeaderMap<HeaderValue>, name: &HeaderName) -> Option<&'r [u8]>
    ensures { option_map (λ v. v.now) result ≡ only (get_all fields.now name.now) }
{
    let mut values = fields.get_all(name).iter();
    let value = values.next()?;
    match values.next() {
        None => Some(value.as_bytes()),
        Some(_) => None,
    }
}

/// Whether one of the values of a field has this token, in upper or lower case.
pub(crate) fn names(fields: &HeaderMap<HeaderValue>, name: &HeaderName, token: &[u8]) -> bool
    ensures { result ≡ names (get_all fields.now name.now) token.now }
{
    fields
        .get_all(name)
        .iter()
        .any(|value| has_token(value.as_bytes(), token))
}

/// Whether one of the pieces between spaces and commas is this token, in upper or lower case.
fn has_token(value: &[u8], token: &[u8]) -> bool
    ensures { result ≡ has_token value.now token.now }
{
    let mut start = 0;
    for i in 0..value.len() {
        if value[i] == b' ' || value[i] == b',' {
            if is_same(&value[start..i], token) {
                return true;
            }
            start = i + 1;
        }
    }
    is_same(&value[start..], token)
}

/// Whether the texts are the same but for the case of letters.
fn is_same(a: &[u8], b: &[u8]) -> bool
    ensures { result ≡ eq_ignore_case a.now b.now }
{
    a.eq_ignore_ascii_case(b)
}
