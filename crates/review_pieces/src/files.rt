//! The files of `review/` that are given as they stand, without indents. `tools/pieces` writes this file.

/// `review/page.css`.
pub const PAGE_CSS: &[u8] = b"\
    /* A page drawn from its tree, in a frame of its own. Its elements are all `div`; what they were is in `data-n`, and what of\n\
    their attributes matters is a text beside them, in `.a`. */\n\
    :root {\n\
    color-scheme: light dark;\n\
    --paper: #ffffff;\n\
    --ink: #1b1f24;\n\
    --soft: #57606a;\n\
    --line: #b9c1ca;\n\
    --panel: #f4f6f8;\n\
    --link: #0b57b0;\n\
    --mark: #c2410c;\n\
    --mark-back: #fff3d6;\n\
    }\n\
    @media (prefers-color-scheme: dark) {\n\
    :root {\n\
    --paper: #14171b;\n\
    --ink: #e6e9ed;\n\
    --soft: #a4adb8;\n\
    --line: #4a525c;\n\
    --panel: #1d2228;\n\
    --link: #86b9f5;\n\
    --mark: #fdba74;\n\
    --mark-back: #33270f;\n\
    }\n\
    }\n\
    html { font: 100%/1.45 system-ui, \"Segoe UI\", \"Noto Sans\", sans-serif; background: var(--paper); color: var(--ink); }\n\
    body { margin: 0; padding: 0.5rem 0.75rem; overflow-wrap: anywhere; }\n\
    :focus-visible { outline: 0.1875rem solid var(--link); outline-offset: -0.1875rem; }\n\
    /* `--shape` is what a marked element is, so that its outline is one box. */\n\
    [data-n] { --shape: block; display: block; margin: 0.25rem 0; }\n\
    [data-n=\"a\"], [data-n=\"abbr\"], [data-n=\"b\"], [data-n=\"bdi\"], [data-n=\"bdo\"], [data-n=\"big\"], [data-n=\"button\"], [data-n=\"cite\"],\n\
    [data-n=\"code\"], [data-n=\"data\"], [data-n=\"del\"], [data-n=\"dfn\"], [data-n=\"em\"], [data-n=\"font\"], [data-n=\"i\"], [data-n=\"img\"],\n\
    [data-n=\"input\"], [data-n=\"ins\"], [data-n=\"kbd\"], [data-n=\"label\"], [data-n=\"mark\"], [data-n=\"output\"], [data-n=\"q\"],\n\
    [data-n=\"s\"], [data-n=\"samp\"], [data-n=\"select\"], [data-n=\"small\"], [data-n=\"span\"], [data-n=\"strong\"], [data-n=\"sub\"],\n\
    [data-n=\"sup\"], [data-n=\"time\"], [data-n=\"tt\"], [data-n=\"u\"], [data-n=\"var\"], [data-n=\"wbr\"] { --shape: inline-block; display: inline; margin: 0; }\n\
    [data-n=\"h1\"], [data-n=\"h2\"], [data-n=\"h3\"], [data-n=\"h4\"], [data-n=\"h5\"], [data-n=\"h6\"], [data-n=\"b\"], [data-n=\"strong\"],\n\
    [data-n=\"th\"], [data-n=\"dt\"] { font-weight: 700; }\n\
    [data-n=\"h1\"] { font-size: 1.5rem; }\n\
    [data-n=\"h2\"] { font-size: 1.25rem; }\n\
    [data-n=\"em\"], [data-n=\"i\"], [data-n=\"cite\"] { font-style: italic; }\n\
    [data-n=\"code\"], [data-n=\"kbd\"], [data-n=\"samp\"], [data-n=\"tt\"], [data-n=\"pre\"] { font-family: ui-monospace, monospace; }\n\
    [data-n=\"pre\"], [data-n=\"textarea\"] { white-space: pre-wrap; }\n\
    [data-n=\"li\"] { --shape: list-item; display: list-item; margin-left: 1.5rem; }\n\
    [data-n=\"ol\"] > [data-n=\"li\"] { list-style: decimal; }\n\
    [data-n=\"dd\"], [data-n=\"blockquote\"] { margin-left: 1.5rem; }\n\
    [data-n=\"table\"] { --shape: table; display: table; border-collapse: collapse; }\n\
    [data-n=\"tr\"] { --shape: table-row; display: table-row; }\n\
    [data-n=\"td\"], [data-n=\"th\"] { --shape: table-cell; display: table-cell; border: 1px solid var(--line); padding: 0.125rem 0.375rem; }\n\
    [data-n=\"tbody\"], [data-n=\"thead\"], [data-n=\"tfoot\"] { --shape: table-row-group; display: table-row-group; }\n\
    [data-n=\"br\"] { height: 0; margin: 0; }\n\
    [data-n=\"hr\"] { border-top: 1px solid var(--line); }\n\
    .link { color: var(--link); text-decoration: underline; }\n\
    [data-n=\"form\"] { border: 1px dashed var(--line); border-radius: 0.25rem; padding: 0.25rem 0.5rem; }\n\
    .field, .press, .tick {\n\
    display: inline-block; border: 1px solid var(--soft); border-radius: 0.1875rem; padding: 0.0625rem 0.375rem;\n\
    min-width: 8rem; min-height: 1.45em; background: var(--panel); margin: 0.125rem 0.25rem 0.125rem 0; max-width: 100%;\n\
    vertical-align: middle;\n\
    }\n\
    .press, .tick { min-width: 0; }\n\
    .press { border-radius: 0.75rem; }\n\
    .off { opacity: 0.6; }\n\
    .a, .undrawn { color: var(--soft); font: 0.75rem/1.3 ui-monospace, monospace; text-decoration: none; font-weight: 400;\n\
    font-style: normal; }\n\
    .a { margin: 0 0.25rem; }\n\
    .undrawn { border: 1px dotted var(--line); padding: 0 0.25rem; margin: 0 0.25rem; }\n\
    /* where the event acts, or would */\n\
    .target { display: var(--shape); outline: 0.1875rem solid var(--mark); outline-offset: 0.125rem; background: var(--mark-back);\n\
    margin: 0.375rem; scroll-margin: 4rem; }\n\
    [data-n=\"li\"].target { margin-left: 1.5rem; }\n\
    .target::before, .gap::before {\n\
    content: attr(data-mark); display: inline-block; background: var(--mark); color: var(--paper); font: 700 0.75rem/1.3 system-ui;\n\
    padding: 0.0625rem 0.375rem; margin-right: 0.25rem;\n\
    }\n\
    .gap { border: 0.125rem dashed var(--mark); padding: 0.25rem; margin: 0.25rem 0; scroll-margin: 4rem; }\n\
";

/// `review/review.css`.
pub const REVIEW_CSS: &[u8] = b"\
    /* The administrator's page. Light and dark go by the browser's own setting; every state has a sign and a word beside its\n\
    colour; all lengths are in rem, so it grows with the text. */\n\
    :root {\n\
    color-scheme: light dark;\n\
    --paper: #ffffff;\n\
    --ink: #1b1f24;\n\
    --soft: #57606a;\n\
    --line: #b9c1ca;\n\
    --panel: #f4f6f8;\n\
    --link: #0b57b0;\n\
    --focus: #0b57b0;\n\
    --done: #1a6b2f;\n\
    --untouched: #57606a;\n\
    --waiting: #8a4b00;\n\
    --waiting-back: #fff3d6;\n\
    --kept: #0b57b0;\n\
    --cancelled: #a0202c;\n\
    --ins-back: #d7f2dd;\n\
    --del-back: #fbdcdc;\n\
    }\n\
    @media (prefers-color-scheme: dark) {\n\
    :root {\n\
    --paper: #14171b;\n\
    --ink: #e6e9ed;\n\
    --soft: #a4adb8;\n\
    --line: #4a525c;\n\
    --panel: #1d2228;\n\
    --link: #86b9f5;\n\
    --focus: #86b9f5;\n\
    --done: #7fd296;\n\
    --untouched: #a4adb8;\n\
    --waiting: #f0b45c;\n\
    --waiting-back: #33270f;\n\
    --kept: #86b9f5;\n\
    --cancelled: #f2929a;\n\
    --ins-back: #17351f;\n\
    --del-back: #43191d;\n\
    }\n\
    }\n\
    * { box-sizing: border-box; }\n\
    html { font: 100%/1.5 system-ui, \"Segoe UI\", \"Noto Sans\", sans-serif; }\n\
    body { margin: 0; background: var(--paper); color: var(--ink); }\n\
    a { color: var(--link); }\n\
    :focus-visible { outline: 0.1875rem solid var(--focus); outline-offset: 0.125rem; }\n\
    h1 { font-size: 1.5rem; line-height: 1.25; margin: 0 0 0.5rem; }\n\
    h2 { font-size: 1.125rem; margin: 1.75rem 0 0.5rem; }\n\
    h3 { font-size: 1rem; margin: 0 0 0.375rem; }\n\
    p, ul, ol, table, pre { margin: 0 0 0.75rem; }\n\
    code, pre, .text { font-family: ui-monospace, \"DejaVu Sans Mono\", monospace; font-size: 0.9375em; }\n\
    h1, p, code, .text, tbody th, td, dd, li, summary { overflow-wrap: anywhere; }\n\
    .skip { position: absolute; left: -99rem; }\n\
    .skip:focus { left: 0.5rem; top: 0.5rem; background: var(--paper); padding: 0.25rem 0.5rem; z-index: 1; }\n\
    .hidden { position: absolute; width: 1px; height: 1px; overflow: hidden; clip-path: inset(50%); white-space: nowrap; }\n\
    .top { border-bottom: 1px solid var(--line); background: var(--panel); }\n\
    .top nav, main { max-width: 80rem; margin: 0 auto; padding: 0.75rem 1rem; }\n\
    .top nav { display: flex; flex-wrap: wrap; gap: 0.5rem 1.25rem; align-items: center; }\n\
    .top form { display: flex; flex-wrap: wrap; gap: 0.375rem; align-items: center; margin-left: auto; }\n\
    .top [aria-current] { font-weight: 600; color: var(--ink); }\n\
    input, button { font: inherit; color: inherit; }\n\
    input[type=\"search\"] {\n\
    border: 1px solid var(--soft); border-radius: 0.25rem; background: var(--paper); padding: 0.25rem 0.5rem; width: 14rem;\n\
    max-width: 100%;\n\
    }\n\
    button {\n\
    border: 1px solid var(--soft); border-radius: 0.25rem; background: var(--paper); padding: 0.375rem 0.875rem;\n\
    cursor: pointer; min-height: 2.25rem;\n\
    }\n\
    button:hover { background: var(--panel); }\n\
    button[disabled] { cursor: default; opacity: 0.6; }\n\
    .note { border-left: 0.25rem solid var(--waiting); background: var(--waiting-back); padding: 0.5rem 0.75rem; margin-bottom: 0.75rem; }\n\
    .note > :last-child { margin-bottom: 0; }\n\
    .soft { color: var(--soft); }\n\
    /* ---- how a visit stands: a sign, a word, a colour */\n\
    .state { white-space: nowrap; font-weight: 600; }\n\
    .state::before { display: inline-block; width: 1.25em; text-align: center; }\n\
    .done { color: var(--done); }\n\
    .done::before { content: \"\\2713\"; }\n\
    .untouched { color: var(--untouched); }\n\
    .untouched::before { content: \"\\25CB\"; }\n\
    .waiting { color: var(--waiting); }\n\
    .waiting::before { content: \"\\25B2\"; }\n\
    .kept { color: var(--kept); }\n\
    .kept::before { content: \"\\25A0\"; }\n\
    .cancelled { color: var(--cancelled); }\n\
    .cancelled::before { content: \"\\2715\"; }\n\
    /* ---- tables and lists */\n\
    .wide { overflow-x: auto; }\n\
    table { border-collapse: collapse; width: 100%; }\n\
    th, td { text-align: left; vertical-align: top; padding: 0.375rem 0.75rem 0.375rem 0; border-bottom: 1px solid var(--line); }\n\
    th { font-weight: 600; }\n\
    thead th { color: var(--soft); font-size: 0.875rem; }\n\
    td.number, th.number { text-align: right; font-variant-numeric: tabular-nums; }\n\
    tr.front { background: var(--waiting-back); }\n\
    .fronts { list-style: none; padding: 0; }\n\
    .fronts li { border: 1px solid var(--line); border-radius: 0.375rem; padding: 0.625rem 0.875rem; margin-bottom: 0.5rem; }\n\
    .fronts p { margin: 0; }\n\
    /* A tree: each visit behind the one that opened it. The lines stand for the levels. */\n\
    .tree { list-style: none; padding: 0; }\n\
    .tree li { display: flex; gap: 0.5rem; padding: 0.125rem 0; }\n\
    .tree .level { flex: none; width: 1rem; border-left: 2px solid var(--line); margin-left: 0.375rem; }\n\
    .tree .what { display: flex; flex-wrap: wrap; gap: 0 0.75rem; min-width: 0; }\n\
    .tree .cancelled ~ code { text-decoration: line-through; }\n\
    .tree li.here { background: var(--waiting-back); }\n\
    .pages { display: flex; flex-wrap: wrap; gap: 0.5rem 1rem; }\n\
    /* ---- one visit */\n\
    .split { display: grid; grid-template-columns: repeat(2, minmax(0, 1fr)); gap: 1rem; }\n\
    @media (max-width: 44rem) {\n\
    .split { grid-template-columns: minmax(0, 1fr); }\n\
    .top form { margin-left: 0; width: 100%; }\n\
    table.stack, .stack thead, .stack tbody, .stack tr, .stack td, .stack th { display: block; }\n\
    .stack thead { position: absolute; clip-path: inset(50%); }\n\
    .stack td, .stack tbody th { border: 0; padding: 0.0625rem 0; }\n\
    .stack td { display: inline-block; margin-right: 1rem; }\n\
    .stack tr { border-bottom: 1px solid var(--line); padding: 0.375rem 0; }\n\
    .stack td[data-head]::before { content: attr(data-head) \": \"; color: var(--soft); }\n\
    td.number { text-align: left; }\n\
    .tree li { gap: 0.25rem; }\n\
    .tree .level { width: 0.25rem; margin-left: 0.125rem; }\n\
    }\n\
    .split + h3 { margin-top: 1rem; }\n\
    figure { margin: 0; min-width: 0; }\n\
    figure h3 { margin-bottom: 0.25rem; }\n\
    iframe { width: 100%; height: 24rem; border: 1px solid var(--line); background: var(--paper); resize: vertical; }\n\
    .decide { border: 2px solid var(--waiting); border-radius: 0.375rem; padding: 0.875rem; }\n\
    .decide .split > div { display: flex; flex-direction: column; }\n\
    .decide form { margin-top: auto; }\n\
    .decide button { width: 100%; font-weight: 600; border-width: 2px; }\n\
    button[name=\"keep\"] { border-color: var(--kept); color: var(--kept); }\n\
    button[name=\"cancel\"] { border-color: var(--cancelled); color: var(--cancelled); }\n\
    .along { max-height: 14rem; overflow-y: auto; padding-left: 1.25rem; }\n\
    dl { display: grid; grid-template-columns: max-content minmax(0, 1fr); gap: 0.25rem 1rem; margin: 0 0 0.75rem; }\n\
    dt { color: var(--soft); }\n\
    dd { margin: 0; }\n\
    @media (max-width: 44rem) {\n\
    dl { grid-template-columns: minmax(0, 1fr); gap: 0; }\n\
    dd { margin-bottom: 0.375rem; }\n\
    }\n\
    .text { white-space: pre-wrap; background: var(--panel); border: 1px solid var(--line); border-radius: 0.25rem; padding: 0.5rem;\n\
    margin: 0; max-height: 20rem; overflow: auto; }\n\
    .text.empty { color: var(--soft); font-style: italic; }\n\
    ins { background: var(--ins-back); text-decoration: underline; text-decoration-thickness: 2px; }\n\
    del { background: var(--del-back); text-decoration: line-through; text-decoration-thickness: 2px; }\n\
    .requests { padding-left: 1.25rem; }\n\
    .events li.here { background: var(--waiting-back); font-weight: 600; }\n\
    @media print { .top, .decide form { display: none; } }\n\
";

/// `review/review.js`.
pub const REVIEW_JS: &[u8] = b"\
    // What the administrator's page does where scripts run. All of it works without: forms are sent, and links followed.\n\
    \"use strict\";\n\
    // A decision is sent once, however often its button is pressed.\n\
    for (const form of document.querySelectorAll(\"form[data-visit]\")) {\n\
    form.addEventListener(\"submit\", (event) => {\n\
    if (form.dataset.sent) {\n\
    event.preventDefault();\n\
    return;\n\
    }\n\
    form.dataset.sent = \"yes\";\n\
    // Only behind this event, since a button that is disabled isn't sent.\n\
    setTimeout(() => {\n\
    for (const button of document.querySelectorAll(\"form[data-visit] button\")) {\n\
    button.disabled = true;\n\
    }\n\
    });\n\
    });\n\
    }\n\
    // A page that comes out of the browser's own cache may be older than what was decided since.\n\
    window.addEventListener(\"pageshow\", (event) => {\n\
    if (event.persisted) {\n\
    location.reload();\n\
    }\n\
    });\n\
    // Whether another browser has decided meanwhile is looked up when one comes back to the page.\n\
    const told = document.getElementById(\"meanwhile\");\n\
    let asking = false;\n\
    async function look() {\n\
    if (asking || document.hidden || !told) {\n\
    return;\n\
    }\n\
    asking = true;\n\
    try {\n\
    const answer = await fetch(\"/state\", { cache: \"no-store\" });\n\
    told.hidden = !answer.ok || (await answer.text()).trim() === told.dataset.decided;\n\
    } catch {\n\
    // The server has ended: what is shown is all that there is.\n\
    }\n\
    asking = false;\n\
    }\n\
    document.addEventListener(\"visibilitychange\", look);\n\
    window.addEventListener(\"focus\", look);\n\
";
