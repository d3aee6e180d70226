//! Drawings as SVG files, by way of `serve`.

use crate::tests::cases::{Case, count_met, is_met};
use crate::tests::options::{FIVE, ONE, TWO, WITH_TREE};
use crate::tests::rows::JOIN;
use std::alloc::{AllocError, Global};
use std::test::Fail;

/// Trees of one leaf, with characters that have names in XML in its identity, and with a long identity.
const NAMED: &str =
    "2b0101010101810001033c262202000102f0010000020001010000000000000000ffffffffffffffff0001dd";

const LONG: &str =
    "3c010101010181000114303132333435363738393c7461696c3e6162636402000102f0010000020001010000000000000000ffffffffffffffff0001dd";

/// How nodes look, behind the first row of each.
const STYLE: &str = r##"<style>
text{font:12px DejaVu Sans Mono,Menlo,Consolas,monospace}
text{text-anchor:middle;fill:#334155}
.blank text,.leaf .index{fill:#64748b}
.identity{font-size:11px}
.index,.unmerged{font-size:10px}
.unmerged{fill:#b45309}
path{fill:none;stroke:#cbd5e1;stroke-width:2}
.leaf rect{fill:#dcefe6;stroke:#5f9f83;stroke-width:1.5}
.parent circle{fill:#dbe7f5;stroke:#6b8fc0;stroke-width:1.5}
.blank rect,.blank circle{fill:#fff;stroke:#94a3b8;stroke-dasharray:4 3}
.renewed rect,.renewed circle{stroke-width:4}
</style>
<rect x="-16" y="-40" width="100%" height="100%" fill="#fff"/>
"##;

const NODES_OF_ANN: &str =
    r##"<g class="leaf" transform="translate(40 0)"><title>&quot;ann&quot;</title><text class="identity" xml:space="preserve" y="51">&quot;ann&quot;</text><rect x="-22" y="-18" width="44" height="36" rx="9"/><text y="4">0</text><text class="index" y="34">leaf 0</text></g>
</svg>
"##;

const NODES_OF_NAMED: &str =
    r##"<g class="leaf" transform="translate(40 0)"><title>&quot;&lt;&amp;&quot;&quot;</title><text class="identity" xml:space="preserve" y="51">&quot;&lt;&amp;&quot;&quot;</text><rect x="-22" y="-18" width="44" height="36" rx="9"/><text y="4">0</text><text class="index" y="34">leaf 0</text></g>
</svg>
"##;

const NODES_OF_LONG: &str =
    r##"<g class="leaf" transform="translate(40 0)"><title>&quot;0123456789&lt;tail&gt;abcd&quot;</title><text class="identity" xml:space="preserve" y="51">&quot;012345678…</text><rect x="-22" y="-18" width="44" height="36" rx="9"/><text y="4">0</text><text class="index" y="34">leaf 0</text></g>
</svg>
"##;

const NODES_OF_TWO: &str =
    r##"<g class="leaf" transform="translate(40 72)"><title>&quot;ann&quot;</title><text class="identity" xml:space="preserve" y="51">&quot;ann&quot;</text><rect x="-22" y="-18" width="44" height="36" rx="9"/><text y="4">0</text><text class="index" y="34">leaf 0</text></g>
<path d="M40 53V0H120V53"/><g class="blank parent" transform="translate(80 0)"><circle r="18"/><text y="4">1</text></g>
<g class="leaf" transform="translate(120 72)"><title>&quot;bob&quot;</title><text class="identity" xml:space="preserve" y="51">&quot;bob&quot;</text><rect x="-22" y="-18" width="44" height="36" rx="9"/><text y="4">2</text><text class="index" y="34">leaf 1</text></g>
</svg>
"##;

const NODES_OF_FIVE: &str =
    r##"<g class="leaf" transform="translate(40 216)"><title>&quot;ann&quot;</title><text class="identity" xml:space="preserve" y="51">&quot;ann&quot;</text><rect x="-22" y="-18" width="44" height="36" rx="9"/><text y="4">0</text><text class="index" y="34">leaf 0</text></g>
<path d="M40 197V144H120V197"/><g class="parent" transform="translate(80 144)"><circle r="18"/><text y="4">1</text></g>
<g class="leaf" transform="translate(120 216)"><title>&quot;bob&quot;</title><text class="identity" xml:space="preserve" y="51">&quot;bob&quot;</text><rect x="-22" y="-18" width="44" height="36" rx="9"/><text y="4">2</text><text class="index" y="34">leaf 1</text></g>
<path d="M80 125V72H240V125"/><g class="blank parent" transform="translate(160 72)"><circle r="18"/><text y="4">3</text></g>
<g class="blank leaf" transform="translate(200 216)"><rect x="-22" y="-18" width="44" height="36" rx="9"/><text y="4">4</text><text class="index" y="34">leaf 2</text></g>
<path d="M200 197V144H280V197"/><g class="blank parent" transform="translate(240 144)"><circle r="18"/><text y="4">5</text></g>
<g class="leaf" transform="translate(280 216)"><title>ff</title><text class="identity" xml:space="preserve" y="51">ff</text><rect x="-22" y="-18" width="44" height="36" rx="9"/><text y="4">6</text><text class="index" y="34">leaf 3</text></g>
<path d="M160 53V0H480V53"/><g class="renewed parent" transform="translate(320 0)"><title>unmerged 3 4</title><text class="unmerged" y="33">unmerged</text><text class="unmerged" y="46"> 3 4</text><circle r="18"/><text y="4">7</text></g>
<g class="leaf" transform="translate(360 216)"><title>&quot;&quot;</title><text class="identity" xml:space="preserve" y="51">&quot;&quot;</text><rect x="-22" y="-18" width="44" height="36" rx="9"/><text y="4">8</text><text class="index" y="34">leaf 4</text></g>
<path d="M360 197V144H440V197"/><g class="blank parent" transform="translate(400 144)"><circle r="18"/><text y="4">9</text></g>
<g class="blank leaf" transform="translate(440 216)"><rect x="-22" y="-18" width="44" height="36" rx="9"/><text y="4">10</text><text class="index" y="34">leaf 5</text></g>
<path d="M400 125V72H560V125"/><g class="blank parent" transform="translate(480 72)"><circle r="18"/><text y="4">11</text></g>
<g class="blank leaf" transform="translate(520 216)"><rect x="-22" y="-18" width="44" height="36" rx="9"/><text y="4">12</text><text class="index" y="34">leaf 6</text></g>
<path d="M520 197V144H600V197"/><g class="blank parent" transform="translate(560 144)"><circle r="18"/><text y="4">13</text></g>
<g class="blank leaf" transform="translate(600 216)"><rect x="-22" y="-18" width="44" height="36" rx="9"/><text y="4">14</text><text class="index" y="34">leaf 7</text></g>
</svg>
"##;

const NODES_OF_PAIR: &str =
    r##"<g class="renewed leaf" transform="translate(40 72)"><title>&quot;a&quot;</title><text class="identity" xml:space="preserve" y="51">&quot;a&quot;</text><rect x="-22" y="-18" width="44" height="36" rx="9"/><text y="4">0</text><text class="index" y="34">leaf 0</text></g>
<path d="M40 53V0H120V53"/><g class="renewed parent" transform="translate(80 0)"><circle r="18"/><text y="4">1</text></g>
<g class="leaf" transform="translate(120 72)"><title>&quot;b&quot;</title><text class="identity" xml:space="preserve" y="51">&quot;b&quot;</text><rect x="-22" y="-18" width="44" height="36" rx="9"/><text y="4">2</text><text class="index" y="34">leaf 1</text></g>
</svg>
"##;

/// The first row of a file of this width and height.
fn opening(alloc: Global, width: u64, height: u64) -> Result<String, AllocError> {
    format!(in alloc;
        "<svg xmlns=\"http://www.w3.org/2000/svg\" width=\"{width}\" height=\"{height}\" viewBox=\"-16 -40 {width} {height}\">\n"
    )
}

const SVG: &[&str] = &["mls", "check", "FILE", "--draw", "--svg"];

const INFO_SVG: &[&str] = &["mls", "check", "--svg", "--group-info", "FILE", "--draw"];

const MEMBER_SVG: &[&str] = &["mls", "replay", "FILE", "--draw=1", "--svg"];

/// Words, a FILE, the width and the height of the drawing, and its nodes.
type Drawn<'a> = (&'a [&'a str], &'a str, u64, u64, &'a str);

const DRAWN: &[Drawn] = &[
    (SVG, ONE, 112, 116, NODES_OF_ANN),
    (SVG, NAMED, 112, 116, NODES_OF_NAMED),
    (SVG, LONG, 112, 116, NODES_OF_LONG),
    (SVG, TWO, 192, 188, NODES_OF_TWO),
    (SVG, FIVE, 672, 332, NODES_OF_FIVE),
    (INFO_SVG, WITH_TREE, 112, 116, NODES_OF_ANN),
    (MEMBER_SVG, JOIN, 192, 188, NODES_OF_PAIR),
];

/// The drawing of this width and height with these nodes.
fn drawing(alloc: Global, width: u64, height: u64, nodes: &str) -> Result<String, AllocError> {
    let first = opening(alloc, width, height)?;
    format!(in alloc; "{first}{STYLE}{nodes}")
}

/// How many are drawn so, from the first on.
fn count_drawn(alloc: Global, cases: &[Drawn<'_>]) -> Result<usize, AllocError> {
    for i in 0..cases.len() {
        let (words, file, width, height, nodes) = cases[i];
        let text = drawing(alloc, width, height, nodes)?;
        if !is_met(alloc, words, file.as_bytes(), 0, text.as_bytes())? {
            return Ok(i);
        }
    }
    Ok(cases.len())
}

#[test]
fn draws_trees_as_svg_files(rt: HostRuntime) -> Result<(), Fail> {
    assert_eq!(rt; count_drawn(rt.alloc(), DRAWN)?, DRAWN.len());
    Ok(())
}

const REFUSED_SVG: &[&str] = &["mls", "replay", "FILE", "--draw=2", "--svg"];

const REFUSED: &[Case] = &[
    (SVG, "00", 1, "refused: 20 TreeShape\n"),
    (SVG, "zz", 1, "refused: 8 NotHex\n"),
    (REFUSED_SVG, JOIN, 1, "refused: 90 NoSuchMember\n"),
    (REFUSED_SVG, "[]", 1, "refused: 9 BadJson\n"),
];

#[test]
fn refuses_what_is_no_tree(rt: HostRuntime) -> Result<(), Fail> {
    assert_eq!(rt; count_met(rt.alloc(), REFUSED)?, REFUSED.len());
    Ok(())
}
