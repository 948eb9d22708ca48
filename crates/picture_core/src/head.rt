//! The head of a picture.

ghost use Rattle.std.specs.Prelude.{◌≡◌, IfOk};
ghost use Rattle.std.specs.String.{string_bytes};
ghost use Rattle.picture_core.specs.Heads.{opening, page};

use crate::frame::{hatchings, style};
use price_core::NoMemory;
use std::alloc::Global;

/// Begins a picture of that height, with its title and its description for whoever doesn't see it.
#[tactic(auto, unfolding(crate::specs::Heads::opening))]
pub fn opening(
    alloc: Global,
    height: u128,
    title: &str,
    description: &str,
) -> Result<String, NoMemory>
    ensures { IfOk result (λ text. string_bytes text ≡ opening height title.now description.now) }
{
    let drawn = height / 5;
    Ok(format!(in alloc;
        "<svg xmlns=\"http://www.w3.org/2000/svg\" role=\"img\" aria-labelledby=\"title description\" width=\"1280\" height=\"{drawn}\" viewBox=\"0 0 6400 {height}\">\n<title id=\"title\">{title}</title>\n<desc id=\"description\">{description}</desc>\n"
    )?)
}

/// The page of a picture, with the title and words below it.
#[tactic(auto, unfolding(crate::specs::Heads::page))]
pub fn page(alloc: Global, height: u128, title: &str, words: &str) -> Result<String, NoMemory>
    ensures { IfOk result (λ text. string_bytes text ≡ page height title.now words.now) }
{
    let (style, hatchings) = (style(), hatchings());
    Ok(format!(in alloc;
        "{style}{hatchings}<rect class=\"page\" width=\"6400\" height=\"{height}\"/>\n<text class=\"title\" x=\"800\" y=\"130\">{title}</text><text x=\"800\" y=\"210\">{words}</text>\n"
    )?)
}
