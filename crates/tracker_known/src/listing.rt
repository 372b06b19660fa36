// What a Start lists of what is known.
ghost use Rattle.std.specs.Prelude.{◌≡◌, true};
ghost use Rattle.std.specs.List.{list_all};
ghost use Rattle.orswot_core.specs.Limits.{are_texts};
ghost use Rattle.presence_journal.specs.StepLimits.{is_named};

use presence_base::{Dot, Row};

// Reads the names and texts of rows, whose types keep their limits.
pub(crate) fn read_rows(live: &[(Dot, Row)])
    ensures names { list_all is_named live.now ≡ true }
    ensures texts { list_all (λ x. are_texts x.1) live.now ≡ true }
{
    for row in live {
        read_row(row);
    }
}

fn read_row(row: &(Dot, Row))
    ensures names { is_named row.now ≡ true }
    ensures texts { are_texts row.now.1 ≡ true }
{
    let _name = row.0.replica.name.as_str();
    let (_topic, _key, _meta) = (row.1.topic.as_str(), row.1.key.as_str(), row.1.meta.text());
}
