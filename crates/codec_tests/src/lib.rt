//! Tests of `rre_codec` and `hextile_codec`, which are in their own crate so that each of those is proved once.
#![tactic(auto)]

#[cfg(test)]
mod colours;
#[cfg(test)]
mod hextile_carried;
#[cfg(test)]
mod hextile_fed;
#[cfg(test)]
mod hextile_joined;
#[cfg(test)]
mod hextile_kept;
#[cfg(test)]
mod hextile_reading;
#[cfg(test)]
mod hextile_writing;
#[cfg(test)]
mod rre_joined;
#[cfg(test)]
mod rre_reading;
#[cfg(test)]
mod rre_writing;
