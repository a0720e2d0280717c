//! How the page looks: light or dark as the reader has it, and light in print.

use base64::engine::general_purpose::STANDARD;
use sha2::{Digest, Sha256};
use std::alloc::{AllocError, Global};

/// The SHA-256 digest of the page's style, as a browser asks for it: in base 64. The page says by it
/// that no other style counts.
pub(crate) fn sum_of_style(alloc: Global) -> Result<String, AllocError> {
    let mut hasher = Sha256::new();
    hasher.update(STYLE.as_bytes());
    STANDARD.encode(alloc, hasher.finalize().as_slice())
}

/// The page's style.
pub(crate) const STYLE: &str = "
:root { color-scheme: light dark; --ink: #1b1f24; --paper: #ffffff; --card: #ffffff; --soft: #f3f5f8; --line: #d5dbe1; --faint: #57606a;
  --link: #0b5cad; --bad: #b3261e; --good: #1a6b3c; --hit: #fff3c4; --mark: #1f6fbf; }
.begin, .gone, .none, .begins { --k: #6b7580; } .commit, .free { --k: #1a7f55; } .abort, .back, .moved { --k: #c2410c; }
.enqueue, .put { --k: #1f6fbf; } .dequeue, .taken { --k: #9a6b00; } .define { --k: #a83e84; } .register { --k: #0e7490; }
.deregister { --k: #8a5a44; } .checkpoint, .true { --k: #6a4fb3; } .kill, .false, .damage { --k: #b3261e; } .unit { --k: #1f6fbf; }
@media screen and (prefers-color-scheme: dark) {
  :root { --ink: #e6eaee; --paper: #0f1317; --card: #151a20; --soft: #1c232b; --line: #343d47; --faint: #a0acb8;
    --link: #7cb7f2; --bad: #ff8a80; --good: #6fd39b; --hit: #4a3f12; --mark: #58a6ff; }
  .begin, .gone, .none, .begins { --k: #9aa6b2; } .commit, .free { --k: #3fb984; } .abort, .back, .moved { --k: #f0883e; }
  .enqueue, .put { --k: #58a6ff; } .dequeue, .taken { --k: #e3b341; } .define { --k: #e07bc0; } .register { --k: #56c8e0; }
  .deregister { --k: #c49a82; } .checkpoint, .true { --k: #a48bf0; } .kill, .false, .damage { --k: #ff7b72; } .unit { --k: #58a6ff; }
}
* { box-sizing: border-box; }
html { scroll-padding-top: 3.5rem; }
body { font: 15px/1.5 system-ui, -apple-system, \"Segoe UI\", sans-serif; color: var(--ink); background: var(--paper);
  max-width: 70rem; margin: 0 auto; padding: 1.5rem 1rem 4rem; }
a { color: var(--link); text-decoration: none; }
a:hover, a:focus-visible { text-decoration: underline; }
h1 { font-size: 1.6rem; line-height: 1.2; margin: 0 0 .3rem; overflow-wrap: anywhere; }
h2 { font-size: 1.15rem; margin: 0 0 .6rem; }
p { margin: .4rem 0; }
.by { color: var(--faint); }
.badge { border: 1px solid; border-radius: 1rem; padding: .05rem .6rem; font-weight: 600; }
.badge.good { color: var(--good); } .badge.wrong, .bad { color: var(--bad); }
.tiles { display: grid; grid-template-columns: repeat(auto-fit, minmax(8rem, 1fr)); gap: .6rem; margin: 1rem 0; }
.tiles div { background: var(--soft); border-radius: .5rem; padding: .5rem .8rem; }
dt { color: var(--faint); font-size: .85rem; }
dd { margin: 0; font-size: 1.35rem; font-weight: 600; font-variant-numeric: tabular-nums; }
nav { position: sticky; top: 0; z-index: 1; display: flex; flex-wrap: wrap; gap: .2rem 1rem; background: var(--paper);
  border-bottom: 1px solid var(--line); padding: .6rem 0; margin-bottom: 1rem; }
section { background: var(--card); border: 1px solid var(--line); border-radius: .6rem; padding: 1rem; margin: 0 0 1.2rem; }
table { border-collapse: collapse; width: 100%; font-variant-numeric: tabular-nums; }
caption { text-align: left; color: var(--faint); font-size: .85rem; padding-bottom: .3rem; }
th, td { text-align: left; padding: .25rem .8rem .25rem 0; border-top: 1px solid var(--line); vertical-align: top; }
th { font-weight: 600; }
th[scope=\"col\"] { color: var(--faint); font-size: .85rem; border-top: 0; vertical-align: bottom; white-space: nowrap; }
.front th { width: 12rem; color: var(--faint); }
.front td { overflow-wrap: anywhere; }
code, .text { font-family: ui-monospace, \"SFMono-Regular\", Menlo, Consolas, monospace; font-size: .92em; overflow-wrap: anywhere; }
.text { white-space: pre-wrap; }
.hex { color: var(--faint); }
i { color: var(--faint); }
small { display: block; color: var(--faint); font-weight: 400; }
summary { cursor: pointer; color: var(--link); }
details table { background: var(--soft); border-radius: .4rem; margin: .4rem 0; }
.text + details { display: inline-block; max-width: 100%; vertical-align: top; margin-left: .6rem; }
details th, details td { padding-left: .6rem; }
details caption { padding: .3rem .6rem; }
.queue > * { padding-top: .5rem; } .queue th { width: 40%; overflow-wrap: anywhere; }
.fold > td { border-top: 0; padding: 0 0 .4rem; }
.more { margin-top: .6rem; }
.more > table { background: none; } .more > table > * > tr > * { padding-left: 0; }
.scroll { overflow-x: auto; }
.plot { display: grid; grid-template-columns: 3.2rem 1fr; gap: .4rem; }
.scale { display: flex; flex-direction: column; justify-content: space-between; text-align: right; color: var(--faint);
  font-size: .75rem; line-height: 1; }
svg { display: block; width: 100%; height: 4rem; background: var(--soft); border-radius: .2rem; }
.tall svg { height: 11rem; }
.bars { margin-top: .4rem; } .bars svg { height: auto; }
.queues .plot { grid-template-columns: 2rem minmax(5rem, 1fr); } .queues .plot svg { height: 1.7rem; }
path { fill: var(--mark); }
rect { fill: var(--k); }
rect.damage { opacity: .35; }
.axis { display: flex; justify-content: space-between; color: var(--faint); font-size: .75rem; margin: .2rem 0 .6rem 3.6rem; }
.queues .axis { margin: 0 0 0 2.4rem; font-weight: 400; }
ul.legend { list-style: none; padding: 0; margin: .6rem 0 0; display: flex; flex-wrap: wrap; gap: .2rem 1.2rem; }
.legend li::before { content: \"\"; display: inline-block; width: .75em; height: .75em; margin-right: .4em; border-radius: .15em;
  background: var(--k); }
ol { list-style: none; padding: 0; margin: 0; display: flex; flex-wrap: wrap; gap: .25rem; }
ol li { border-left: 3px solid var(--k); background: var(--soft); border-radius: .2rem; padding: 0 .5rem; overflow-wrap: anywhere; }
td > b { border-left: 3px solid var(--k); padding-left: .4rem; }
.lives td { overflow-wrap: anywhere; } .records td:nth-child(3) { width: 58%; }
.lives td bdi { display: inline-block; max-width: 100%; }
tr:target > * { background: var(--hit); }
@media (max-width: 40rem) {
  body { padding: .8rem .6rem 3rem; } section { padding: .7rem; }
  th, td { padding-right: .4rem; }
  .front th { width: 7rem; }
  .queues, .queues tbody, .queues th, .queues td, .queues caption, .fold { display: block; }
  .queues > tbody > tr { display: block; } .queues > tbody > tr > th[scope=\"col\"] { display: none; }
  .queues > tbody > tr > th[scope=\"col\"]:last-child { display: block; padding: 0; }
  .queues > tbody > .queue { display: grid; grid-template-columns: auto auto 1fr; gap: 0 .8rem; border-top: 1px solid var(--line); padding: .4rem 0; }
  .queue th { grid-column: 1 / -1; width: auto; } .queue > * { border: 0; padding: 0; }
  .queue td:nth-child(2)::before { content: \"elements \"; color: var(--faint); } .queue td:nth-child(3)::before { content: \"at most \"; color: var(--faint); }
  .fold table, .fold table tbody, .fold table th, .fold table td, .fold table caption { display: revert; }
  .fold table { font-size: .85rem; } .fold table th, .fold table td { border-top: 1px solid var(--line); padding: .2rem .3rem; }
  .lives, .lives tbody, .lives tr, .lives th, .lives td, .lives caption { display: block; }
  .lives th[scope=\"col\"] { display: none; }
  .lives th, .lives td { border: 0; padding: .05rem 0; }
  .lives tr { border-top: 1px solid var(--line); padding: .4rem 0; }
  nav { position: static; }
}
@media print {
  body { max-width: none; margin: 0; padding: 0; font-size: 10pt; }
  nav { display: none; }
  * { print-color-adjust: exact; -webkit-print-color-adjust: exact; }
  .scroll { overflow: visible; }
  section { border: 0; padding: 0; }
  svg, tr { break-inside: avoid; } h2, .queue { break-after: avoid; }
}
";
