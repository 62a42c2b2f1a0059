//! The counts and the greatest distance of an internet.

ghost use Rattle.std.specs.Prelude.{◌≡◌, ◌<◌, ◌^◌, fold, length, max, sum_by};
ghost use Rattle.audit.specs.Verdicts.{summary_of};

use crate::verdict::Summary;
use table_image::{Image, Router, Row};

fn count_rows(routers: &[Router]) -> usize
    requires { sum_by (λ router. length router.rows) routers.now < 2 ^ 32 }
    ensures { result ≡ sum_by (λ router. length router.rows) routers.now }
{
    routers.iter().map(|router| router.rows.len()).sum()
}

fn greatest_in(rows: &[Row]) -> u8
    ensures { result ≡ fold (λ g row. max g row.distance) 0 rows.now }
{
    rows.iter().fold(0, |g, row| row.distance.max(g))
}

fn greatest_distance(routers: &[Router]) -> u8
    ensures { result
        ≡ fold
        (λ g router. max g (fold (λ g row. max g row.distance) 0 router.rows))
        0 routers.now }
{
    routers
        .iter()
        .fold(0, |g, router| greatest_in(router.rows.as_slice()).max(g))
}

/// The summary of the internet.
pub(crate) fn summarize(image: &Image) -> Summary
    ensures { result ≡ summary_of image.now }
{
    let routers = image.routers();
    Summary {
        cables: image.cables().len() as u32,
        routers: routers.len() as u32,
        nodes: image.nodes().len() as u32,
        rows: count_rows(routers) as u32,
        greatest: greatest_distance(routers),
    }
}
