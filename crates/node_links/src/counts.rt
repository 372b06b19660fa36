// How much a line tells.
ghost use Rattle.std.specs.Prelude.{◌≡◌};
ghost use Rattle.node_links.specs.Streams.{is_above, news_are_too_many, tells_too_many as line_is_above};

use link_lines::{Line, Telling};
use orswot_core::{Form, MAX_ROWS};

fn is_too_many(telling: &Telling) -> bool
    ensures { result ≡ is_above telling.now }
{
    let ranges = telling.told.ranges().len();
    let left = match telling.form {
        Form::One => MAX_ROWS,
        Form::Two if ranges > MAX_ROWS => return true,
        Form::Two => MAX_ROWS - ranges,
    };
    let extras = telling.told.extras().len();
    extras > left || telling.told.live().len() > left - extras
}

fn are_news_too_many(news: &Option<Telling>) -> bool
    ensures { result ≡ news_are_too_many news.now }
{
    match news {
        Some(telling) => is_too_many(telling),
        None => false,
    }
}

// Whether the line tells more than a node takes in: rows and extras, or in the second form rows and ranges.
pub(crate) fn tells_too_many(line: &Line) -> bool
    ensures { result ≡ line_is_above line.now }
{
    match line {
        Line::Beat { delta, .. } => are_news_too_many(delta),
        Line::Told { told, .. } => is_too_many(told),
        _ => false,
    }
}
