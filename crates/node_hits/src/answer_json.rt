//! Writes the answer to a query as JSON: the version of its form, its citation, the query that is looked up, why none
//! is, the hits, the rows whose date is covered and whose volume is not, and the releases that may have more hits.
ghost use Rattle.std.specs.Prelude.{◌≡◌, ◌++◌, OnOk, map};
ghost use Rattle.std.specs.List.{flat_map};
ghost use Rattle.node_response.specs.JsonLists.{items_from, json_list};
ghost use Rattle.node_hits.specs.AnswerJson.{answer_end, answer_json, answer_start, citation_front, citation_json};
ghost use Rattle.node_hits.specs.AnswerJson.{more_in_member, part_member, query_members, release_object};
ghost use Rattle.node_hits.specs.Tallying.{tally_from};

use crate::hits_json::{put_also_json, put_hits_json, put_release_members};
use crate::query_facts::QueryFacts;
use crate::tally::Tally;
use feed_bytes::put_all;
use feed_citation::{CitationPart, PARTS};
use feed_names::ReleaseName;
use feed_openurl::Citation;
use node_response::{Fragment, put, put_comma, put_list_end, put_list_start};
use std::alloc::AllocError;

// Writes the version of the form, and the beginning of a citation.
#[tactic(auto, unfolding(crate::specs::AnswerJson::citation_front))]
fn put_citation_front(out: &mut Vec<u8>, citation: &Citation) -> Result<(), AllocError>
    ensures { OnOk result (out.new.items ≡ out.old.items ++ citation_front citation.now) }
{
    put_all(
        out,
        &[
            Fragment::Plain(b"{\"version\":1,\"citation\":{\"article\":"),
            Fragment::Quoted(citation.text(CitationPart::Article).as_bytes()),
        ],
    )
}

// Writes a part of a citation as a member behind others.
#[tactic(auto, unfolding(crate::specs::AnswerJson::part_member))]
fn put_part(out: &mut Vec<u8>, citation: &Citation, part: CitationPart) -> Result<(), AllocError>
    ensures { OnOk result (out.new.items ≡ out.old.items ++ part_member citation.now part) }
{
    put_all(
        out,
        &[
            Fragment::Plain(b",\""),
            Fragment::Plain(part.name().as_bytes()),
            Fragment::Plain(b"\":"),
            Fragment::Quoted(citation.text(part).as_bytes()),
        ],
    )
}

fn put_parts(
    out: &mut Vec<u8>,
    citation: &Citation,
    parts: &[CitationPart],
) -> Result<(), AllocError>
    ensures { OnOk result (out.new.items ≡ out.old.items ++ flat_map (part_member citation.now) parts.now) }
{
    for part in parts {
        put_part(out, citation, *part)?;
    }
    Ok(())
}

#[tactic(auto, unfolding(crate::specs::AnswerJson::citation_json))]
fn put_citation(out: &mut Vec<u8>, citation: &Citation) -> Result<(), AllocError>
    ensures { OnOk result (out.new.items ≡ out.old.items ++ citation_json citation.now) }
{
    put_citation_front(out, citation)?;
    put_parts(out, citation, &PARTS[1..])?;
    put(out, b"}")
}

#[tactic(auto, unfolding(crate::specs::AnswerJson::query_members))]
fn put_query<'a>(out: &mut Vec<u8>, query: &'a [u8], refused: &'a [u8]) -> Result<(), AllocError>
    ensures { OnOk result (out.new.items ≡ out.old.items ++ query_members query.now refused.now) }
{
    put_all(
        out,
        &[
            Fragment::Plain(b",\"query\":"),
            Fragment::Quoted(query),
            Fragment::Plain(b",\"refused\":"),
            Fragment::Quoted(refused),
            Fragment::Plain(b",\"hits\":"),
        ],
    )
}

#[tactic(auto, unfolding(crate::specs::AnswerJson::answer_start))]
fn put_start(out: &mut Vec<u8>, ask: &QueryFacts<'_>, refused: &[u8]) -> Result<(), AllocError>
    ensures { OnOk result (out.new.items ≡ out.old.items ++ answer_start ask.now refused.now) }
{
    put_citation(out, ask.citation)?;
    put_query(out, &ask.query, refused)
}

// Writes a release as an object.
#[tactic(auto, unfolding(crate::specs::AnswerJson::release_object))]
fn put_release_object(out: &mut Vec<u8>, name: &ReleaseName) -> Result<(), AllocError>
    ensures { OnOk result (out.new.items ≡ out.old.items ++ release_object name.now) }
{
    put_release_members(out, name)?;
    put(out, b"}")
}

fn put_release_objects(out: &mut Vec<u8>, names: &[&ReleaseName]) -> Result<(), AllocError>
    ensures { OnOk result (out.new.items
        ≡ out.old.items ++ items_from release_object 0 (map (λ name. name.now) names.now)) }
{
    for (place, name) in names.iter().enumerate() {
        put_comma(out, place)?;
        put_release_object(out, name)?;
    }
    Ok(())
}

fn put_releases(out: &mut Vec<u8>, names: &[&ReleaseName]) -> Result<(), AllocError>
    ensures { OnOk result (out.new.items
        ≡ out.old.items ++ json_list release_object (map (λ name. name.now) names.now)) }
{
    put_list_start(out)?;
    put_release_objects(out, names)?;
    put_list_end(out)
}

// Writes the releases that may have more hits, and the end of the answer.
#[tactic(auto, unfolding(crate::specs::AnswerJson::more_in_member))]
fn put_more_in(out: &mut Vec<u8>, names: &[&ReleaseName]) -> Result<(), AllocError>
    ensures { OnOk result (out.new.items
        ≡ out.old.items ++ more_in_member (map (λ name. name.now) names.now)) }
{
    put(out, b",\"more_in\":")?;
    put_releases(out, names)?;
    put(out, b"}\n")
}

#[tactic(auto, unfolding(crate::specs::AnswerJson::answer_end))]
fn put_end(out: &mut Vec<u8>, tally: &Tally<'_>, also: &Tally<'_>) -> Result<(), AllocError>
    ensures { OnOk result (out.new.items
        ≡ out.old.items ++ answer_end (tally_from tally.now) (tally_from also.now)) }
{
    put(out, b",\"also\":")?;
    put_also_json(out, also)?;
    put_more_in(out, tally.partial())
}

/// Writes the version of the form, the facts about a query, why nothing is looked up, or an empty reason, the hits that
/// a tally shows, the titles of another one, whose date is covered and whose volume is not, and the releases that may
/// have more hits.
#[tactic(auto, unfolding(crate::specs::AnswerJson::answer_json))]
pub fn put_answer_json(
    out: &mut Vec<u8>,
    ask: &QueryFacts<'_>,
    refused: &[u8],
    tally: &Tally<'_>,
    also: &Tally<'_>,
) -> Result<(), AllocError>
    ensures { OnOk result (out.new.items
        ≡ out.old.items ++ answer_json ask.now refused.now (tally_from tally.now) (tally_from also.now)) }
{
    put_start(out, ask, refused)?;
    put_hits_json(out, tally)?;
    put_end(out, tally, also)
}
