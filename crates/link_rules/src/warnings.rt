//! The lines on standard error of what is odd about a link.
ghost use Rattle.std.specs.Prelude.{◌≡◌, IfOk, string_bytes};
ghost use Rattle.link_rules.specs.Warnings.{untold_text, warning_words, what_is_odd, warning_text};

use crate::warning::LinkWarning;
use node_links::Untold;
use std::alloc::{AllocError, Global};

fn untold_words(alloc: Global, untold: &Untold) -> Result<String, AllocError>
    ensures { IfOk result (λ s. string_bytes s ≡ untold_text untold.now) }
{
    let shard = untold.shard;
    let Some(size) = untold.size else {
        return format!(in alloc;
            "it stays without shard {shard}, whose rows and other counts are more than a line holds, 65536 in all or 4194304 bytes: more --shards or fewer rows help"
        );
    };
    let rows = size.rows;
    let beside = size.beside;
    format!(in alloc;
        "it stays without shard {shard}, whose {rows} rows and {beside} other counts are more than a line holds, 4194304 bytes: more --shards or fewer rows help"
    )
}

fn words_of(warning: LinkWarning) -> &'static str
    ensures { result.now ≡ warning_words warning }
{
    match warning {
        LinkWarning::Untold(_) => "",
        LinkWarning::NotDialled =>
            "no --peer of this node has its name, so it isn't told of rows here",
        LinkWarning::NotDialling => {
            "it doesn't dial this node, so rows there aren't told here: does it lack a --peer?"
        }
        LinkWarning::TwoNodes => "a node of the same name speaks over another link: are there two?",
        LinkWarning::CountsBelow => {
            "it counts below what is known of it: was it started again with the same --incarnation?"
        }
        LinkWarning::OwnCounts => {
            "it tells of what this node never did: was this one started again with the same --incarnation, or are there two? Start it with a higher --incarnation"
        }
    }
}

fn words_for(alloc: Global, warning: LinkWarning) -> Result<String, AllocError>
    ensures { IfOk result (λ s. string_bytes s ≡ what_is_odd warning) }
{
    match warning {
        LinkWarning::Untold(untold) => untold_words(alloc, &untold),
        _ => String::from_str(alloc, words_of(warning)),
    }
}

/// The line of what is odd about a link.
pub fn warning_line(alloc: Global, place: &str, warning: LinkWarning) -> Result<String, AllocError>
    ensures { IfOk result (λ s. string_bytes s ≡ warning_text place.now warning) }
{
    let words = words_for(alloc, warning)?;
    let line = format!(in alloc; "link {place}: {words}\n")?;
    Ok(line)
}
