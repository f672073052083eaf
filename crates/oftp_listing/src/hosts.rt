//! The hosts that a request over HTTP may name.

ghost use Rattle.std.specs.Prelude.{◌≡◌, ◌==◌, ◌↔◌, All, IsTrue, IsUtf8, length, map, option_map};
ghost use Rattle.std.specs.List.{before_first};
ghost use Rattle.std.specs.Net.Addr.{ipv6_segments};
ghost use Rattle.httparse.specs.Spans.{IsHeaderWithin, header_bytes};
ghost use Rattle.oftp_listing.specs.Hosts.{IsAddress, IsHost, IsName, NamesHost, bracketed, host_in, segments_in};

use httparse::spans::HeaderSpan;
use std::net::{IpAddr, Ipv6Addr};

/// The hosts that a request may name, beside `localhost`.
#[derive(Clone, Copy)]
pub(crate) struct Hosts<'a> {
    /// The address that was called, if it is known.
    pub(crate) address: Option<IpAddr>,
    /// Another name, if there is one.
    pub(crate) name: Option<&'a str>,
}

// What stands before the bracket that closes, or the whole value if none does.
fn bracketed<'a>(value: &'a str, behind: &'a str) -> &'a str
    ensures { result.now ≡ bracketed value.now behind.now }
{
    match behind.split_once(']') {
        Some((host, _)) => host,
        None => value,
    }
}

// What stands before the first colon, or all if there is none.
fn before_colon(value: &str) -> &str
    ensures { result.now ≡ before_first (λ c. c == 58) value.now }
{
    match value.split_once(':') {
        Some((host, _)) => host,
        None => value,
    }
}

// The host in a value of the field Host, without its port.
fn host_in(value: &str) -> &str
    ensures { result.now ≡ host_in value.now }
{
    match value.strip_prefix('[') {
        Some(behind) => bracketed(value, behind),
        None => before_colon(value),
    }
}

// An address as one of IPv6.
fn as_version6(address: IpAddr) -> Ipv6Addr
    ensures { ipv6_segments result ≡ segments_in address }
{
    match address {
        IpAddr::V4(address) => address.to_ipv6_mapped(),
        IpAddr::V6(address) => address,
    }
}

// Whether a host is this name, if there is one.
fn is_name(name: Option<&str>, host: &str) -> bool
    ensures { IsTrue result ↔ IsName (option_map (λ name. name.now) name.entry) host.now }
{
    match name {
        Some(name) => host.eq_ignore_ascii_case(name),
        None => false,
    }
}

// Whether two addresses are the same, where an IPv4 address is what a socket of IPv6 sees it as.
fn is_same(address: IpAddr, other: IpAddr) -> bool
    ensures { IsTrue result ↔ (segments_in address ≡ segments_in other) }
{
    as_version6(address).segments() == as_version6(other).segments()
}

// Whether a host is this address, in any spelling.
fn is_address(address: Option<IpAddr>, host: &str) -> bool
    ensures { IsTrue result ↔ IsAddress address host.now }
{
    let Some(address) = address else {
        return false;
    };
    match host.parse::<IpAddr>() {
        Ok(asked) => is_same(asked, address),
        Err(_) => false,
    }
}

// Whether a host is this one.
fn is_host(hosts: Hosts<'_>, host: &str) -> bool
    ensures { IsTrue result ↔ IsHost hosts.entry host.now }
{
    host.eq_ignore_ascii_case("localhost")
        || is_name(hosts.name, host)
        || is_address(hosts.address, host)
}

// Whether the value of a field Host is text, and names this host.
fn is_value(hosts: Hosts<'_>, value: &[u8]) -> bool
    ensures { IsTrue result ↔ (IsUtf8 value.now × IsHost hosts.entry (host_in value.now)) }
{
    match str::from_utf8(value) {
        Ok(value) => is_host(hosts, host_in(value)),
        Err(_) => false,
    }
}

// Whether a header field names this host, if it is the field Host at all.
fn names_host(hosts: Hosts<'_>, request: &[u8], field: HeaderSpan) -> bool
    requires { IsHeaderWithin (length request.now) field }
    ensures { IsTrue result ↔ NamesHost hosts.entry (header_bytes request.now field) }
{
    !field.name.of(request).eq_ignore_ascii_case(b"host")
        || is_value(hosts, field.value.of(request))
}

/// Whether each field Host of a request names this host.
pub(crate) fn all_name_host(hosts: Hosts<'_>, request: &[u8], fields: &[HeaderSpan]) -> bool
    requires { All (IsHeaderWithin (length request.now)) fields.now }
    ensures { IsTrue result ↔ All (NamesHost hosts.entry) (map (header_bytes request.now) fields.now) }
{
    for field in fields {
        if !names_host(hosts, request, *field) {
            return false;
        }
    }
    true
}
