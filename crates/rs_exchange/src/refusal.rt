//! Why a message is refused before a desk is asked.

ghost use Rattle.std.specs.Prelude.{◌≡◌};
ghost use Rattle.rs_exchange.specs.Targets.{method_list};

/// The methods of a kind of target (RFC 9110, section 10.2.1).
#[derive(Clone, Copy, Debug, PartialEq, Eq)]
pub enum Methods {
    /// GET, HEAD, PUT, DELETE and OPTIONS.
    Storage,
    /// GET, HEAD and OPTIONS.
    Discovery,
    /// GET, HEAD and POST.
    Grant,
}

impl Methods {
    /// The list, as an Allow line has it.
    #[tactic(auto, unfolding(crate::specs::Targets::method_list))]
    pub fn list(self) -> &'static [u8]
        ensures list { result.now ≡ method_list self }
    {
        match self {
            Methods::Storage => b"GET, HEAD, PUT, DELETE, OPTIONS",
            Methods::Discovery => b"GET, HEAD, OPTIONS",
            Methods::Grant => b"GET, HEAD, POST",
        }
    }
}

/// Why a message is refused before its user's desk is asked. The order of the causes is the one in which they are looked at.
#[derive(Clone, Copy, Debug, PartialEq, Eq)]
pub enum Refusal {
    /// 404: there is no such target (RFC 9110, section 15.5.5).
    NotFound,
    /// 405: the target takes these methods (RFC 9110, section 15.5.6).
    NotAllowed { methods: Methods },
    /// 400: the path of a storage target is none.
    BadPath,
    /// 400: an If-Match or an If-None-Match is no condition (RFC 9110, section 13.1).
    BadCondition,
    /// 400: a PUT has several content types, or one that is none (RFC 9110, section 8.3).
    BadKind,
    /// 400: a PUT has a Content-Range, and so brings a part of a document (RFC 9110, section 14.5).
    PartOnly,
    /// 400: a discovery query has not one `resource`, or one that is no URI (RFC 7033, section 4.2).
    BadResource,
    /// 400: a grant is asked for without one address of an app to go back to (RFC 6749, section 4.2.2.1).
    BadAddress,
}
