//! Pseudo-header fields (RFC 9114, section 4.3).

use crate::message::Purpose;
use wt_inspection_model::item::{Line, Rule};

/// The pseudo-header fields of a section so far.
#[derive(Clone, Copy)]
pub(crate) struct Pseudo {
    method: bool,
    scheme: bool,
    authority: bool,
    path: bool,
    protocol: bool,
    status: bool,
    /// Whether the method is CONNECT.
    connect: bool,
    /// Whether a field that is no pseudo-header was read.
    regular: bool,
}

impl Pseudo {
    /// Creates the state before the first line.
    pub(crate) fn new() -> Self {
        Pseudo {
            method: false,
            scheme: false,
            authority: false,
            path: false,
            protocol: false,
            status: false,
            connect: false,
            regular: false,
        }
    }

    /// Returns which mark belongs to a pseudo-header, if it is defined.
    fn mark(&mut self, name: &str) -> Option<&mut bool> {
        match name {
            ":method" => Some(&mut self.method),
            ":scheme" => Some(&mut self.scheme),
            ":authority" => Some(&mut self.authority),
            ":path" => Some(&mut self.path),
            ":protocol" => Some(&mut self.protocol),
            ":status" => Some(&mut self.status),
            _ => None,
        }
    }

    /// Returns which pseudo-header is missing at the end of a section.
    pub(crate) fn missing(&self, purpose: Purpose) -> Option<Rule> {
        match purpose {
            Purpose::Request => self.missing_of_request(),
            Purpose::Response if !self.status => Some(Rule::MissingStatus),
            _ => None,
        }
    }

    /// Returns which pseudo-header is missing in a request.
    fn missing_of_request(&self) -> Option<Rule> {
        if !self.method {
            return Some(Rule::MissingMethod);
        }
        if self.connect && !self.protocol {
            return self.missing_of_connect();
        }
        if !self.scheme {
            return Some(Rule::MissingScheme);
        }
        if !self.path {
            return Some(Rule::MissingPath);
        }
        if self.protocol && !self.connect {
            return Some(Rule::ProtocolWithoutConnect);
        }
        None
    }

    /// Returns what is wrong with a CONNECT without `:protocol`.
    fn missing_of_connect(&self) -> Option<Rule> {
        if !self.authority {
            Some(Rule::MissingAuthority)
        } else if self.scheme || self.path {
            Some(Rule::TargetOfConnect)
        } else {
            None
        }
    }
}

/// Takes the next line of a section. Returns what is wrong with it as a pseudo-header.
pub(crate) fn warning_of_pseudo(seen: &mut Pseudo, line: &Line, purpose: Purpose) -> Option<Rule> {
    if line.name.first() != Some(&b':') {
        seen.regular = true;
        return None;
    }
    if seen.regular {
        return Some(Rule::LatePseudoHeader);
    }
    let Ok(name) = str::from_utf8(line.name.as_slice()) else {
        return Some(Rule::UnknownPseudoHeader);
    };
    if name == ":method" && line.value.as_slice() == "CONNECT".as_bytes() {
        seen.connect = true;
    }
    let Some(mark) = seen.mark(name) else {
        return Some(Rule::UnknownPseudoHeader);
    };
    if *mark {
        return Some(Rule::RepeatedPseudoHeader);
    }
    *mark = true;
    misplaced(name, purpose)
}

/// Returns what is wrong with a pseudo-header in a section of this purpose.
fn misplaced(name: &str, purpose: Purpose) -> Option<Rule> {
    match purpose {
        Purpose::Trailers => Some(Rule::PseudoHeaderInTrailers),
        Purpose::Request if name == ":status" => Some(Rule::StatusInRequest),
        Purpose::Response if name != ":status" => Some(Rule::RequestInResponse),
        _ => None,
    }
}
