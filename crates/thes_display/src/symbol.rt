//! The symbols of a display, and the types of hierarchical links that they distinguish (ISO
//! 25964-1, clauses 10.2 and 12).
ghost use Rattle.std.specs.Prelude.{◌≡◌};
ghost use Rattle.thes_display.specs.Alphabetical.{hierarchy_kind, symbol_text, symbols};
ghost use Rattle.thes_base.specs.Links.{IsHierarchical};

use thes_base::data::LinkKind;

/// The type of a hierarchical link (ISO 25964-1, clause 10.2).
#[derive(Clone, Copy, Debug, PartialEq, Eq)]
pub enum Hierarchy {
    /// A link without a type.
    Untyped,
    /// A link between a genus and a species.
    Generic,
    /// A link between a whole and a part.
    Partitive,
    /// A link between a class and an instance.
    Instantial,
}

/// The symbol of a line below a concept's term.
#[derive(Clone, Copy, Debug, PartialEq, Eq)]
pub enum Symbol {
    /// SN: a scope note.
    ScopeNote,
    /// UF: an alternative label.
    UsedFor,
    /// BT, BTG, BTP, BTI: a broader concept.
    Broader(Hierarchy),
    /// NT, NTG, NTP, NTI: a narrower concept.
    Narrower(Hierarchy),
    /// RT: a related concept.
    Related,
}

impl Hierarchy {
    /// Returns the kind of the links of this type, which lead from the narrower to the broader
    /// concept.
    pub fn kind(self) -> LinkKind
        ensures kind { result ≡ hierarchy_kind self }
        ensures hierarchical { IsHierarchical result }
    {
        match self {
            Hierarchy::Untyped => LinkKind::Broader,
            Hierarchy::Generic => LinkKind::BroaderGeneric,
            Hierarchy::Partitive => LinkKind::BroaderPartitive,
            Hierarchy::Instantial => LinkKind::BroaderInstantial,
        }
    }
}

impl Symbol {
    /// Returns all symbols, in the order of their lines in an entry.
    pub fn all() -> [Symbol; 11]
        ensures { result ≡ symbols }
    {
        [
            Symbol::ScopeNote,
            Symbol::UsedFor,
            Symbol::Broader(Hierarchy::Untyped),
            Symbol::Broader(Hierarchy::Generic),
            Symbol::Broader(Hierarchy::Partitive),
            Symbol::Broader(Hierarchy::Instantial),
            Symbol::Narrower(Hierarchy::Untyped),
            Symbol::Narrower(Hierarchy::Generic),
            Symbol::Narrower(Hierarchy::Partitive),
            Symbol::Narrower(Hierarchy::Instantial),
            Symbol::Related,
        ]
    }

    /// Returns the letters of the symbol, such as `BTG`.
    pub fn text(self) -> &'static str
        ensures { result.now ≡ symbol_text self }
    {
        match self {
            Symbol::ScopeNote => "SN",
            Symbol::UsedFor => "UF",
            Symbol::Broader(Hierarchy::Untyped) => "BT",
            Symbol::Broader(Hierarchy::Generic) => "BTG",
            Symbol::Broader(Hierarchy::Partitive) => "BTP",
            Symbol::Broader(Hierarchy::Instantial) => "BTI",
            Symbol::Narrower(Hierarchy::Untyped) => "NT",
            Symbol::Narrower(Hierarchy::Generic) => "NTG",
            Symbol::Narrower(Hierarchy::Partitive) => "NTP",
            Symbol::Narrower(Hierarchy::Instantial) => "NTI",
            Symbol::Related => "RT",
        }
    }
}
