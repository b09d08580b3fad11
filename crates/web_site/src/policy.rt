//! Which scripts a page may run.

ghost use Rattle.std.specs.Prelude.{◌≡◌, ◌++◌, IfOk, OnOk, map};
ghost use Rattle.std.specs.String.{string_bytes};
ghost use Rattle.web_site.specs.Policies.{hash_of, policy_of, source};

use crate::media_type::MediaType;
use crate::table::WebFile;
use base64::engine::general_purpose::STANDARD;
use memchr::memmem;
use sha2::{Digest, Sha256};
use std::alloc::{AllocError, Global};

/// The policy without the hashes of scripts that stand in pages.
const BASE: &[u8] =
    b"frame-ancestors 'none'; default-src 'self'; base-uri 'none'; object-src 'none'; form-action 'none'; connect-src 'self' ws: wss:; img-src 'self' data: blob:; style-src 'self' 'unsafe-inline'; script-src 'self'";

/// At most this many scripts of a page are named.
const MOST_SCRIPTS: usize = 16;

/// The hash by which a script that stands in a page is allowed.
fn hash_of(alloc: Global, script: &[u8]) -> Result<String, AllocError>
    ensures { IfOk result (λ hash. string_bytes hash ≡ hash_of script.now) }
{
    let digest: [u8; 32] = Sha256::digest(script);
    STANDARD.encode(alloc, &digest)
}

/// The policy under which scripts of these hashes run.
pub(crate) fn policy_of(alloc: Global, hashes: &[String]) -> Result<Vec<u8>, AllocError>
    ensures { IfOk result (λ policy. policy.items ≡ policy_of (map string_bytes hashes.now)) }
{
    let mut policy = Vec::new(alloc);
    policy.extend_from_slice(BASE)?;
    for hash in hashes {
        add_source(&mut policy, hash.as_str())?;
    }
    Ok(policy)
}

fn add_source(policy: &mut Vec<u8>, hash: &str) -> Result<(), AllocError>
    ensures { OnOk result (policy.new.items ≡ policy.old.items ++ source hash.now) }
{
    policy.extend_from_slice(b" 'sha256-")?;
    policy.extend_from_slice(hash.as_bytes())?;
    policy.extend_from_slice(b"'")
}

/// What follows the first place of the needle in a text.
fn behind<'t>(text: &'t [u8], needle: &[u8]) -> Option<&'t [u8]> {
    let at = memmem::find(text, needle)?;
    text.get(at..)?.get(needle.len()..)
}

/// The next script that stands in a page, without its tags, and what follows it. A script that the page fetches is
/// empty here.
fn next_script(page: &[u8]) -> Option<(&[u8], &[u8])> {
    let rest = behind(behind(page, b"<script")?, b">")?;
    let end = memmem::find(rest, b"</script")?;
    Some((rest.get(..end)?, rest.get(end..)?))
}

/// Adds the hashes of the scripts that stand in a page.
fn add_hashes(alloc: Global, page: &[u8], hashes: &mut Vec<String>) -> Result<(), AllocError> {
    let mut rest = page;
    for _ in 0..MOST_SCRIPTS {
        let Some((script, after)) = next_script(rest) else {
            return Ok(());
        };
        if !script.is_empty() {
            hashes.push(hash_of(alloc, script)?)?;
        }
        rest = after;
    }
    Ok(())
}

/// The hashes of the scripts that stand in pages. No clause says which these are.
pub(crate) fn hashes_in(alloc: Global, files: &[WebFile]) -> Result<Vec<String>, AllocError> {
    let mut hashes = Vec::new(alloc);
    for file in files {
        if file.media_type == MediaType::Html {
            add_hashes(alloc, file.body.as_slice(), &mut hashes)?;
        }
    }
    Ok(hashes)
}
