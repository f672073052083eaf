//! What a head asks for at a site: the register, the page, or another host.

ghost use Rattle.std.specs.Prelude.{◌≡◌, ◌↔◌, All, IsTrue, codes, length, map};
ghost use Rattle.httparse.specs.Spans.{IsHeaderWithin, header_bytes};
ghost use Rattle.oftp_listing.specs.InsideQuery.{IsSoughtAt};
ghost use Rattle.oftp_listing.specs.Sites.{IsSought};

use crate::hosts::{Hosts, all_name_host};
use httparse::spans::HeaderSpan;
use std::net::IpAddr;

/// What requests over HTTP are answered.
#[derive(Clone, Copy)]
pub enum Site<'a> {
    /// The register, for whatever host.
    Register,
    /// The register and the page, for this machine: for `localhost`, the address that was called, and another name if there is one.
    Page(Option<&'a str>),
}

/// What a request asks for.
#[derive(Clone, Copy, Debug, PartialEq, Eq)]
pub(crate) enum Goal {
    /// The register, or an unknown target.
    Register,
    /// The page.
    Page,
    /// Another host.
    OtherHost,
}

// Whether a request is GET for the page.
fn is_for_page(method: &[u8], target: &[u8]) -> bool
    ensures { IsTrue result ↔ ((method.now ≡ codes "GET") × (target.now ≡ codes "/")) }
{
    method == b"GET".as_slice() && target == b"/".as_slice()
}

// What a head asks for with this method, this target and these fields, of these hosts.
fn goal_of(
    hosts: Hosts<'_>,
    request: &[u8],
    method: &[u8],
    target: &[u8],
    fields: &[HeaderSpan],
) -> Goal
    requires { All (IsHeaderWithin (length request.now)) fields.now }
    ensures { IsSought hosts.entry method.now target.now (map (header_bytes request.now) fields.now) result }
{
    if !all_name_host(hosts, request, fields) {
        Goal::OtherHost
    } else if is_for_page(method, target) {
        Goal::Page
    } else {
        Goal::Register
    }
}

/// What a head asks for with this method, this target and these fields, that was sent to an address of the site.
pub(crate) fn goal_at(
    site: Site<'_>,
    address: Option<IpAddr>,
    request: &[u8],
    method: &[u8],
    target: &[u8],
    fields: &[HeaderSpan],
) -> Goal
    requires { All (IsHeaderWithin (length request.now)) fields.now }
    ensures { IsSoughtAt site.entry address method.now target.now (map (header_bytes request.now) fields.now) result }
{
    match site {
        Site::Register => Goal::Register,
        Site::Page(name) => goal_of(Hosts { address, name }, request, method, target, fields),
    }
}
