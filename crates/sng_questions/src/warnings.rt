//! What of a policy is read, but surely not meant.
ghost use Rattle.std.specs.Prelude.{◌≡◌, ◌++◌, codes, IfOk, OnOk};
ghost use Rattle.sng_book.specs.Printing.{ip_text};
ghost use Rattle.sng_grants.specs.Topics.{id_of};
ghost use Rattle.sng_questions.specs.Warnings.{AreWarnings, clients_lines, end_lines, is_lesser, lesser_text};
ghost use Rattle.sng_questions.specs.Warnings.{pairs_lines};
ghost use Rattle.sng_questions.specs.Warnings.{repeated_lines, repeated_text, scope_lines, share_lines};
ghost use Rattle.sng_questions.specs.Warnings.{silent_lines, source_lines, sources_lines, topic_lines};
ghost use Rattle.sng_questions.specs.Warnings.{topics_lines, use_lines, warning_text};

use crate::places::{push_index, push_member, push_place};
use crate::publishing::may_publish;
use crate::redundant::says_nothing_new;
use sng_book::print::push_decimal;
use sng_grants::{Clients, Grant, Pair, Policy, Sources, Topics};
use sng_places::{Location, Part, repeated_members};
use sng_script::address::push_ip;
use sng_text::TopicName;
use std::alloc::{AllocError, Global};

/// A line for each thing of the accepted text that is read, but surely not meant: members that stand more
/// than once; scopes that end at 0 or have no pairs, and sources that can never publish; pairs without
/// permissions, that say nothing beside another pair of the scope, or with a filter that begins with `$share/`;
/// and topic ids whose name a lesser id has. Only memory can fail.
pub fn warning_lines(alloc: Global, text: &[u8], policy: &Policy) -> Result<Vec<u8>, AllocError>
    ensures { IfOk result (λ lines. AreWarnings policy.now lines.items) }
{
    let mut lines = Vec::new(alloc);
    let repeated = repeated_members(alloc, text)?;
    push_repeated(&mut lines, repeated.as_slice())?;
    push_clients(alloc, &mut lines, &policy.clients)?;
    push_sources(alloc, &mut lines, &policy.topics, &policy.sources)?;
    push_topics(alloc, &mut lines, &policy.topics)?;
    Ok(lines)
}

/// Appends a line for each member that stands more than once.
fn push_repeated(lines: &mut Vec<u8>, places: &[Location]) -> Result<(), AllocError>
    ensures { OnOk result (lines.new.items ≡ lines.old.items ++ repeated_lines places.now) }
{
    for place in places {
        push_repeated_at(lines, place)?;
    }
    Ok(())
}

fn push_repeated_at(lines: &mut Vec<u8>, place: &Location) -> Result<(), AllocError>
    ensures { OnOk result (lines.new.items ≡ lines.old.items ++ repeated_text place.now) }
{
    lines.extend_from_slice(b"warning: ")?;
    push_place(lines, place)?;
    lines.extend_from_slice(b" stands more than once: ")?;
    lines.extend_from_slice(b"the last counts\n")
}

/// Appends the lines of each client's scope.
fn push_clients(alloc: Global, lines: &mut Vec<u8>, clients: &Clients) -> Result<(), AllocError>
    ensures { OnOk result (lines.new.items ≡ lines.old.items ++ clients_lines clients.now) }
{
    for (client, grant) in clients.iter() {
        let mut member = Vec::new(alloc);
        push_member(&mut member, Part::Clients, client.text())?;
        push_end(lines, member.as_slice(), grant.until)?;
        push_scope(alloc, lines, member.as_slice(), grant.scope.pairs())?;
    }
    Ok(())
}

/// Appends the lines of each source.
fn push_sources(
    alloc: Global,
    lines: &mut Vec<u8>,
    topics: &Topics,
    sources: &Sources,
) -> Result<(), AllocError>
    ensures { OnOk result (lines.new.items ≡ lines.old.items ++ sources_lines topics.now sources.now) }
{
    for (source, grant) in sources.iter() {
        push_source(alloc, lines, topics, *source, grant)?;
    }
    Ok(())
}

/// Appends the lines of a source with this grant.
fn push_source(
    alloc: Global,
    lines: &mut Vec<u8>,
    topics: &Topics,
    source: [u8; 4],
    grant: &Grant,
) -> Result<(), AllocError>
    ensures { OnOk result (lines.new.items
        ≡ lines.old.items ++ source_lines topics.now (codes "sources." ++ ip_text source) grant.now) }
{
    let mut member = Vec::new(alloc);
    member.extend_from_slice(b"sources.")?;
    push_ip(&mut member, source)?;
    let pairs = grant.scope.pairs();
    push_end(lines, member.as_slice(), grant.until)?;
    push_silent(alloc, lines, topics, member.as_slice(), pairs)?;
    push_scope(alloc, lines, member.as_slice(), pairs)?;
    Ok(())
}

/// Appends the line of a scope that has ended before anything began.
fn push_end(lines: &mut Vec<u8>, member: &[u8], until: Option<u64>) -> Result<(), AllocError>
    ensures { OnOk result (lines.new.items ≡ lines.old.items ++ end_lines member.now until) }
{
    match until {
        None => Ok(()),
        Some(end) => {
            if end != 0 {
                return Ok(());
            }
            push_warning(lines, member, None, " ends at 0: it is never in force")
        }
    }
}

/// Appends the line of a source that has pairs, and can never publish.
fn push_silent(
    alloc: Global,
    lines: &mut Vec<u8>,
    topics: &Topics,
    member: &[u8],
    pairs: &[Pair],
) -> Result<(), AllocError>
    ensures { OnOk result (lines.new.items
        ≡ lines.old.items ++ silent_lines topics.now member.now pairs.now) }
{
    if pairs.is_empty() || may_publish(alloc, topics, pairs)? {
        return Ok(());
    }
    push_warning(
        lines,
        member,
        None,
        " can never publish: no name of two bytes and none under topics is granted",
    )
}

/// Appends the lines of a scope.
fn push_scope(
    alloc: Global,
    lines: &mut Vec<u8>,
    member: &[u8],
    pairs: &[Pair],
) -> Result<(), AllocError>
    ensures { OnOk result (lines.new.items ≡ lines.old.items ++ scope_lines member.now pairs.now) }
{
    if pairs.is_empty() {
        return push_warning(lines, member, None, " has no pairs: all is denied");
    }
    push_pairs(alloc, lines, member, pairs)
}

fn push_pairs(
    alloc: Global,
    lines: &mut Vec<u8>,
    member: &[u8],
    pairs: &[Pair],
) -> Result<(), AllocError>
    ensures { OnOk result (lines.new.items
        ≡ lines.old.items ++ pairs_lines member.now pairs.now 0 pairs.now) }
{
    for (index, pair) in pairs.iter().enumerate() {
        push_use(alloc, lines, member, pairs, index, pair)?;
        push_share(lines, member, index, pair)?;
    }
    Ok(())
}

/// Appends the line of the pair at this index of the scope, where it grants nothing, or nothing new.
#[tactic(auto, unfolding(crate::specs::Warnings::use_lines))]
fn push_use(
    alloc: Global,
    lines: &mut Vec<u8>,
    member: &[u8],
    pairs: &[Pair],
    index: usize,
    pair: &Pair,
) -> Result<(), AllocError>
    ensures { OnOk result (lines.new.items
        ≡ lines.old.items ++ use_lines member.now pairs.now index pair.now) }
{
    if !pair.publishes && !pair.subscribes {
        return push_warning(
            lines,
            member,
            Some(index),
            " has no permissions: it grants nothing",
        );
    }
    if says_nothing_new(alloc, pairs, index, pair)? {
        return push_warning(
            lines,
            member,
            Some(index),
            " says nothing new: another pair includes it",
        );
    }
    Ok(())
}

/// Appends the line of a pair whose filter looks like a shared subscription.
#[tactic(auto, unfolding(crate::specs::Warnings::share_lines))]
fn push_share(
    lines: &mut Vec<u8>,
    member: &[u8],
    index: usize,
    pair: &Pair,
) -> Result<(), AllocError>
    ensures { OnOk result (lines.new.items ≡ lines.old.items ++ share_lines member.now index pair.now) }
{
    if !pair.filter.text().starts_with(b"$share/") {
        return Ok(());
    }
    push_warning(
        lines,
        member,
        Some(index),
        " begins with $share/: no shared subscription",
    )
}

/// Appends the line of each topic id whose name a lesser one has.
fn push_topics(alloc: Global, lines: &mut Vec<u8>, topics: &Topics) -> Result<(), AllocError>
    ensures { OnOk result (lines.new.items ≡ lines.old.items ++ topics_lines topics.now topics.now) }
{
    for (id, name) in topics.iter() {
        push_topic(alloc, lines, topics, *id, name)?;
    }
    Ok(())
}

fn push_topic(
    alloc: Global,
    lines: &mut Vec<u8>,
    topics: &Topics,
    id: u16,
    name: &TopicName,
) -> Result<(), AllocError>
    ensures { OnOk result (lines.new.items ≡ lines.old.items ++ topic_lines topics.now id name.now) }
{
    if !has_lesser(topics, id, name) {
        return Ok(());
    }
    push_lesser(alloc, lines, id)
}

/// Whether a lesser topic id than this one has the name.
fn has_lesser(topics: &Topics, id: u16, name: &TopicName) -> bool
    ensures { result ≡ is_lesser (id_of topics.now name.now) id }
{
    match topics.id_of(name) {
        Some(least) => least < id,
        None => false,
    }
}

/// Appends the line of a topic id that is not the least of its name.
fn push_lesser(alloc: Global, lines: &mut Vec<u8>, id: u16) -> Result<(), AllocError>
    ensures { OnOk result (lines.new.items ≡ lines.old.items ++ lesser_text id) }
{
    let mut member = Vec::new(alloc);
    member.extend_from_slice(b"topics.")?;
    push_decimal(&mut member, u64::from(id))?;
    push_warning(
        lines,
        member.as_slice(),
        None,
        " has the name of a lesser id: messages for clients go out under the least",
    )
}

/// Appends the line of a warning about a member, or about this pair of its scope.
fn push_warning(
    lines: &mut Vec<u8>,
    member: &[u8],
    pair: Option<usize>,
    words: &str,
) -> Result<(), AllocError>
    ensures { OnOk result (lines.new.items ≡ lines.old.items ++ warning_text member.now pair words.now) }
{
    lines.extend_from_slice(b"warning: ")?;
    lines.extend_from_slice(member)?;
    if let Some(index) = pair {
        push_index(lines, index)?;
    }
    lines.extend_from_slice(words.as_bytes())?;
    lines.extend_from_slice(b"\n")
}
