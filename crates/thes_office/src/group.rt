//! Groups of posts with different keys: each is decided in the state after those before it, and the
//! changes of all are committed in one transaction.
ghost use Rattle.std.specs.Prelude.{◌≡◌, ◌⊎◌, ◌≤◌, ◌<◌, ◌↔◌, ◌++◌, ◌+◌, ◌∷◌, [], ℕ, List, false, true};
ghost use Rattle.std.specs.Prelude.{IsTrue, IfOk, IfErr, OnOk, OnErr, take, length};
ghost use Rattle.thes_base.specs.declared.request.Answer.{Answer};
ghost use Rattle.thes_base.specs.State.{State};
ghost use Rattle.thes_core.specs.CoreView.{IsViewOf};
ghost use Rattle.thes_core.specs.Facts.{AreFacts};
ghost use Rattle.thes_store.specs.Storage.{CommitFrame, QueryFrame};
ghost use Rattle.thes_office.specs.Groups.{AreKeysMarked, GroupDecided, IsDecided, IsGroup, IsMarked};
ghost use Rattle.thes_office.specs.Groups.{IsNewPost, IsPostOf, MayDecideGroup, PerformsGroup, place_of_key};

use crate::commit::{Decided, commit_changes};
use crate::facts::facts_of;
use std::alloc::Global;
use thes_base::fault::Fault;
use thes_base::request::{Answer, Command};
use thes_base::text::Key;
use thes_core::{Core, Facts, Verdict};
use thes_store::digest_of;
use thes_store::keeper::Keeper;
use thes_tables::delta::Delta;

// The greatest number of posts in a group.
const GROUP_LIMIT: usize = 128;

// The number of marks for keys: each key of a group's posts has one of these places.
const PLACES: usize = 1_024;

// Checks whether a request of a group is a Post with the key.
fn is_post_of(key: &Key, command: &Command) -> bool
    ensures { IsTrue result ↔ IsPostOf key.now command.now }
{
    match command {
        Command::Post(own, _, _) => *own == *key,
        _ => false,
    }
}

// Returns the place of a posting's key among the marks. Different keys may have the same place.
#[tactic(auto, unfolding(crate::specs::Groups::place_of_key))]
fn place_of_key(key: &Key) -> usize
    ensures place { result ≡ place_of_key key.now }
    ensures within { result < PLACES }
{
    (digest_of(key) % 1_024) as usize
}

// Marks the place of a posting's key, and returns whether the place was marked before.
#[tactic(auto, using(crate::proofs::GroupLemmas::still_marked, crate::proofs::GroupLemmas::marked_here))]
fn mark(marks: &mut [bool], key: &Key) -> bool
    requires size { length marks.old ≡ PLACES }
    ensures size { length marks.new ≡ PLACES }
    ensures keeps { (other : List ℕ) → IsMarked marks.old other → IsMarked marks.new other }
    ensures marked { IsMarked marks.new key.now }
    ensures was { IsMarked marks.old key.now → result ≡ true }
{
    let place = place_of_key(key);
    let was = marks[place];
    marks[place] = true;
    was
}

// Checks whether a request is a Post, and none of the earlier requests is a Post with its key;
// marks its key. The key is compared with theirs only if its place was marked before.
#[tactic(auto, using(crate::proofs::GroupLemmas::unmarked_is_new, crate::proofs::GroupLemmas::marked_more))]
fn is_new_post(earlier: &[Command], marks: &mut [bool], command: &Command) -> bool
    requires size { length marks.old ≡ PLACES }
    requires marked { AreKeysMarked marks.old earlier.now }
    ensures size { length marks.new ≡ PLACES }
    ensures new { IsTrue result ↔ IsNewPost earlier.now command.now }
    ensures marked { IsTrue result → AreKeysMarked marks.new (earlier.now ++ command.now ∷ []) }
{
    let Command::Post(key, _, _) = command else {
        return false;
    };
    if !mark(marks, key) {
        return true;
    }
    earlier.iter().all(|other| !is_post_of(key, other))
}

// Checks whether the group of the first `count` requests is still a group with the next request;
// marks the key of the next request if it is a Post.
#[tactic(auto, using(crate::proofs::GroupLemmas::group_grows, std::proofs::lemmas::Option::slice_get_read))]
fn may_grow(commands: &[Command], marks: &mut [bool], count: usize) -> bool
    requires within { count ≤ length commands.now }
    requires size { length marks.old ≡ PLACES }
    requires marked { AreKeysMarked marks.old (take count commands.now) }
    ensures size { length marks.new ≡ PLACES }
    ensures grows { IsTrue result → (count < length commands.now)
        × (IsGroup (take count commands.now) → IsGroup (take (count + 1) commands.now)) }
    ensures marked { IsTrue result → AreKeysMarked marks.new (take (count + 1) commands.now) }
{
    let Some(command) = commands.get(count) else {
        return false;
    };
    is_new_post(&commands[..count], marks, command)
}

/// Returns the length of the longest prefix of the list that is a group: at most 128 posts with
/// different keys, or 1 if the first request isn't a Post.
#[tactic(auto, using(crate::proofs::GroupLemmas::group_empty, crate::proofs::GroupLemmas::marked_none))]
pub fn group_length(commands: &[Command]) -> usize
    requires { 0 < length commands.now }
    ensures some { 0 < result }
    ensures fits { result ≤ length commands.now }
    ensures group { IsGroup (take result commands.now) ⊎ (result ≡ 1) }
{
    let mut marks = [false; PLACES];
    let mut count = 0;
    'growing: while count < GROUP_LIMIT && may_grow(commands, &mut marks, count) {
        count += 1;
    }
    if count == 0 {
        return 1;
    }
    count
}

// Decides one more request on its facts, in the state after those before it, which the core holds.
// If the request is accepted, applies it to the core. If memory runs out, the core may be ahead of
// the tables.
fn decide_with_facts(
    core: &mut Core,
    command: &Command,
    facts: &Facts,
    decided: &mut Decided,
) -> Result<(), Fault>
    requires { core.old.spent ≡ false }
    ensures decides { OnOk result ((answer : Answer)
        × (decided.new.answers.items ≡ decided.old.answers.items ++ answer ∷ [])
        × ((s : State) → IsViewOf core.old s → AreFacts command.now s.histories facts.now
        → IsDecided core.old.setting s command.now
        answer decided.old.delta decided.new.delta core.new)) }
    ensures usable { OnOk result ((core.new.spent ≡ false)
        × (core.new.setting ≡ core.old.setting)) }
    ensures err { IfErr result (λ fault. fault ≡ Fault.OutOfMemory) }
{
    match core.decide(command, facts)? {
        Verdict::Settled(answer) => {
            decided.answers.push(answer)?;
            Ok(())
        }
        Verdict::Accepted(answer, delta) => {
            core.apply(command, facts)?;
            decided.append(answer, delta)?;
            Ok(())
        }
    }
}

// Decides the requests of a group in order, each on the facts that the storage has about it, and
// applies them to the core. On a fault the core may be ahead of the tables.
fn decide_group<K: Keeper>(
    alloc: Global,
    keeper: &mut K,
    core: &mut Core,
    group: &[Command],
) -> Result<Decided, Fault>
    requires { MayDecideGroup (K.view keeper.old) core.old group.now }
    ensures decides { IfOk result (λ decided. (K.view keeper.new).is_up
        → GroupDecided (K.view keeper.old).rows core.old.setting group.now decided.answers.items
        decided.delta core.new) }
    ensures usable { IfOk result (λ decided. (length decided.answers.items ≡ length group.now)
        × (core.new.spent ≡ false) × (core.new.setting ≡ core.old.setting)) }
    ensures asks { QueryFrame (K.view keeper.old) (K.view keeper.new) result }
{
    let mut decided = Decided {
        answers: Vec::new(alloc),
        delta: Delta::new(alloc),
    };
    for command in group {
        let facts = match facts_of(alloc, keeper, command) {
            Ok(facts) => facts,
            Err(fault) => return Err(fault),
        };
        decide_with_facts(core, command, &facts, &mut decided)?;
    }
    Ok(decided)
}

/// Performs the requests of a group, and returns their answers: each is decided in the state that
/// the core holds after those before it, and the changes of all are committed in one transaction.
/// On a fault the core is unusable until reloaded, and the tables are unchanged, if the storage is
/// still up.
pub fn perform_group<K: Keeper>(
    alloc: Global,
    keeper: &mut K,
    core: &mut Core,
    group: &[Command],
) -> Result<Vec<Answer>, Fault>
    requires { MayDecideGroup (K.view keeper.old) core.old group.now }
    ensures ok { let limits = core.old.setting.limits in
        IfOk result (λ answers. PerformsGroup (K.view keeper.old) (K.view keeper.new) limits
        group.now answers.items core.new) }
    ensures spent { OnErr result (core.new.spent ≡ true) }
    ensures keeps { CommitFrame (K.view keeper.old) (K.view keeper.new) result }
{
    match decide_group(alloc, keeper, core, group) {
        Ok(Decided { answers, delta }) => {
            if let Err(fault) = commit_changes(keeper, delta) {
                core.mark_spent();
                return Err(fault);
            }
            Ok(answers)
        }
        Err(fault) => {
            core.mark_spent();
            Err(fault)
        }
    }
}
