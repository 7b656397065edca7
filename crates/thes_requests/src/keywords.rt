//! The keywords of requests and views: commands, queries, label kinds and link kinds.
ghost use Rattle.std.specs.Prelude.{◌≡◌};
ghost use Rattle.thes_requests.specs.Keywords.{label_kind_named, link_kind_named, noun_named, verb_named};

use thes_base::data::{LabelKind, LinkKind};

/// The keyword of a command: the value of `do`.
#[derive(Clone, Copy)]
pub enum CommandKeyword {
    Scheme,
    Concept,
    Collection,
    Outside,
    AddLabel,
    DropLabel,
    Relabel,
    Link,
    Unlink,
    Deprecate,
    Merge,
    Split,
    Post,
    Withdraw,
}

/// The keyword of a query: the value of `get`.
#[derive(Clone, Copy)]
pub enum QueryKeyword {
    Totals,
    Concept,
    Postings,
    Posting,
}

/// Returns the command with this keyword, compared byte by byte.
pub fn verb_named(word: &str) -> Option<CommandKeyword>
    ensures { result ≡ verb_named word.now }
{
    match word {
        "scheme" => Some(CommandKeyword::Scheme),
        "concept" => Some(CommandKeyword::Concept),
        "collection" => Some(CommandKeyword::Collection),
        "outside" => Some(CommandKeyword::Outside),
        "addLabel" => Some(CommandKeyword::AddLabel),
        "dropLabel" => Some(CommandKeyword::DropLabel),
        "relabel" => Some(CommandKeyword::Relabel),
        "link" => Some(CommandKeyword::Link),
        "unlink" => Some(CommandKeyword::Unlink),
        "deprecate" => Some(CommandKeyword::Deprecate),
        "merge" => Some(CommandKeyword::Merge),
        "split" => Some(CommandKeyword::Split),
        "post" => Some(CommandKeyword::Post),
        "withdraw" => Some(CommandKeyword::Withdraw),
        _ => None,
    }
}

/// Returns the query with this keyword, compared byte by byte.
pub fn noun_named(word: &str) -> Option<QueryKeyword>
    ensures { result ≡ noun_named word.now }
{
    match word {
        "totals" => Some(QueryKeyword::Totals),
        "concept" => Some(QueryKeyword::Concept),
        "postings" => Some(QueryKeyword::Postings),
        "posting" => Some(QueryKeyword::Posting),
        _ => None,
    }
}

/// Returns the label kind with this keyword: `pref`, `alt`, `hidden` or `scope`.
pub fn label_kind_named(word: &str) -> Option<LabelKind>
    ensures { result ≡ label_kind_named word.now }
{
    match word {
        "pref" => Some(LabelKind::Pref),
        "alt" => Some(LabelKind::Alt),
        "hidden" => Some(LabelKind::Hidden),
        "scope" => Some(LabelKind::Scope),
        _ => None,
    }
}

/// Returns the link kind with this keyword, such as `broader` or `related`.
pub fn link_kind_named(word: &str) -> Option<LinkKind>
    ensures { result ≡ link_kind_named word.now }
{
    match word {
        "broader" => Some(LinkKind::Broader),
        "related" => Some(LinkKind::Related),
        "exact" => Some(LinkKind::Exact),
        "close" => Some(LinkKind::Close),
        "broad" => Some(LinkKind::Broad),
        "narrow" => Some(LinkKind::Narrow),
        "relMatch" => Some(LinkKind::RelMatch),
        "member" => Some(LinkKind::Member),
        "broaderGeneric" => Some(LinkKind::BroaderGeneric),
        "broaderPartitive" => Some(LinkKind::BroaderPartitive),
        "broaderInstantial" => Some(LinkKind::BroaderInstantial),
        _ => None,
    }
}
