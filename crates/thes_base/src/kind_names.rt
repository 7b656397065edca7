//! The names that requests and views use for the kinds of links.
ghost use Rattle.std.specs.Prelude.{◌≡◌};
ghost use Rattle.thes_base.specs.KindNames.{link_kind_name, typed_kind_name};

use crate::data::{LinkKind, TypedKind};

impl LinkKind {
    /// Returns the kind's name in requests and views, for example `relMatch`.
    pub fn name(self) -> &'static str
        ensures { result.now ≡ link_kind_name self }
    {
        match self {
            LinkKind::Broader => "broader",
            LinkKind::Related => "related",
            LinkKind::Exact => "exact",
            LinkKind::Close => "close",
            LinkKind::Broad => "broad",
            LinkKind::Narrow => "narrow",
            LinkKind::RelMatch => "relMatch",
            LinkKind::Member => "member",
            LinkKind::BroaderGeneric => "broaderGeneric",
            LinkKind::BroaderPartitive => "broaderPartitive",
            LinkKind::BroaderInstantial => "broaderInstantial",
        }
    }
}

impl TypedKind {
    /// Returns the kind's name in views, for example `broaderGeneric` where the other end is
    /// broader.
    pub fn name(self) -> &'static str
        ensures { result.now ≡ typed_kind_name self }
    {
        match self {
            TypedKind::BroaderGeneric => "broaderGeneric",
            TypedKind::BroaderInstantial => "broaderInstantial",
            TypedKind::BroaderPartitive => "broaderPartitive",
            TypedKind::NarrowerGeneric => "narrowerGeneric",
            TypedKind::NarrowerInstantial => "narrowerInstantial",
            TypedKind::NarrowerPartitive => "narrowerPartitive",
        }
    }
}
