//! The frame of a page: its beginning, its end, and the statements on it.
use crate::template::TemplateLine;

/// A page up to and including its heading. The first rule of the style is a bar of the library's colour at the top, if
/// it has one. Each colour of a text has a contrast of at least 4.5 with what is behind it.
pub(crate) const TOP: &[TemplateLine] = template![
    ["<!DOCTYPE html>"]
    [r#"<html lang=""# {Language} r#"">"#]
    ["<head>"]
    [r#"<meta charset="utf-8">"#]
    [r#"<meta name="viewport" content="width=device-width, initial-scale=1">"#]
    ["<title>" {Heading} ..]
    if (Library) [" &#8211; " {Library} ..]
    ["</title>"]
    ["<style>" ..]
    if (style Color) ["body{border-top:.3rem solid " {Color} "}" ..]
    ["\
    :root{color-scheme:light dark;--ink:#1b1f24;--soft:#57606a;--line:#8c959f;--paper:#fff;--card:#f6f8fa;\
    --link:#0b57d0;--good:#116329;--some:#7d4e00;--on:#fff}\
    @media(prefers-color-scheme:dark){:root{--ink:#e6edf3;--soft:#9198a1;--line:#656c76;--paper:#0d1117;\
    --card:#151b23;--link:#79b8ff;--good:#56d364;--some:#e3b341;--on:#0d1117}}\
    *{box-sizing:border-box}\
    body{margin:0;color:var(--ink);background:var(--paper);font:1rem/1.5 system-ui,sans-serif;overflow-wrap:anywhere}\
    header,main{max-width:48rem;margin:0 auto;padding:.8rem 1rem}\
    header{color:var(--soft)}\
    h1{font-size:1.5rem;line-height:1.25;margin:.4rem 0}h2{font-size:1.1rem;margin:1.8rem 0 .6rem}\
    a{color:var(--link)}\
    a:focus-visible,button:focus-visible,input:focus-visible{outline:.2rem solid var(--link);outline-offset:.15rem}\
    dl{display:grid;grid-template-columns:auto 1fr;gap:.1rem .8rem;margin:.4rem 0 1.2rem}\
    dt{color:var(--soft)}dd{margin:0}\
    .hits{list-style:none;margin:1rem 0;padding:0}\
    .hits li{padding:.8rem 1rem;margin:0 0 .7rem;background:var(--card);border:1px solid var(--line);\
    border-radius:.4rem}\
    .hits p{margin:.2rem 0}.name{font-weight:600}.inside{color:var(--good)}.partly{color:var(--some)}\
    .more{color:var(--soft)}\
    .go{display:inline-block;margin:.3rem 0;padding:.35rem .9rem;border-radius:.4rem;background:var(--link);\
    color:var(--on);text-decoration:none}\
    .note{padding:.7rem 1rem;border-left:.25rem solid var(--some);background:var(--card)}\
    .hidden{position:absolute;width:1px;height:1px;overflow:hidden;clip-path:inset(50%);white-space:nowrap}\
    form{display:grid;gap:.2rem;max-width:24rem}label{margin-top:.5rem}\
    input,button{font:inherit;width:100%;padding:.45rem .6rem;border:1px solid var(--line);border-radius:.4rem;\
    background:var(--paper);color:inherit}\
    button{width:auto;justify-self:start;margin-top:.8rem;background:var(--link);color:var(--on);border:0}\
    </style>"]
    ["</head>"]
    ["<body>"]
    if (Library) ["<header><bdi>" {Library} "</bdi></header>"]
    ["<main>"]
    ["<h1>" {Heading} "</h1>"]
];

/// The library's help and contact, and the end of a page.
pub(crate) const FOOT: &[TemplateLine] = template![
    if (link Help) [r#"<p><a href=""# {Help} r#"">"# {text Help} "</a></p>"]
    if (link Contact) [r#"<p><a href=""# {Contact} r#"">"# {text Contact} "</a></p>"]
    ["</main>"]
    ["</body>"]
    ["</html>"]
];

pub(crate) const NOTE: &[TemplateLine] = template![if (Note) [r#"<p class="note">"# {Note} "</p>"]];

/// The name of an error, if there is one, for whoever a reader asks about it.
pub(crate) const FAULT: &[TemplateLine] =
    template![if (Fault) [r#"<p class="more">"# {Fault} "</p>"]];

pub(crate) const ASK_AGAIN: &[TemplateLine] = template![["<h2>" {text AskAgain} "</h2>"]];
