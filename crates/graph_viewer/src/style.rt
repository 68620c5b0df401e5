//! How the viewer looks: light and dark, as the browser prefers.

pub(crate) const STYLE: &str = r####":root {
    color-scheme: light dark;
    --ground: #ffffff; --raised: #f6f7f9; --sunk: #eef0f3; --line: #d5d9e0; --text: #1c2430; --quiet: #5b6675;
    --accent: #1a5fb4; --accent-ground: #e4eefb; --focus: #1a5fb4;
    --failed: #b3261e; --failed-ground: #fde8e6; --open: #8a5a00; --open-ground: #fdf1d8; --done: #1b6e3c; --done-ground: #e2f4e8;
    --start: #6b7280; --plain: #7a8699; --call: #1a5fb4; --fork: #7b3fa0; --join: #7b3fa0; --terminate: #b3261e;
    --box: #ffffff; --shadow: 0 1px 2px rgb(20 30 50 / 0.12);
    --thread: #97a1b0; --item: #1a5fb4; --branch: #7b3fa0; --bound: #b26b00;
    font: 14px/1.45 system-ui, -apple-system, "Segoe UI", "Noto Sans", "DejaVu Sans", sans-serif;
}
@media (prefers-color-scheme: dark) {
    :root {
        --ground: #14181f; --raised: #1b212b; --sunk: #10141a; --line: #343d4b; --text: #e4e9f0; --quiet: #9aa6b6;
        --accent: #7db3f5; --accent-ground: #1d3350; --focus: #7db3f5;
        --failed: #ff8a80; --failed-ground: #46201d; --open: #f2c063; --open-ground: #40320f; --done: #7ed3a0; --done-ground: #173a26;
        --start: #8b95a5; --plain: #7a8699; --call: #5b9bea; --fork: #b98ad6; --join: #b98ad6; --terminate: #ff8a80;
        --box: #1f2732; --shadow: 0 1px 3px rgb(0 0 0 / 0.5);
        --thread: #5d6979; --item: #5b9bea; --branch: #b98ad6; --bound: #e0a24a;
    }
}
* { box-sizing: border-box; }
html, body { height: 100%; margin: 0; overflow: hidden; }
body { display: flex; flex-direction: column; background: var(--ground); color: var(--text); }
h1 { font-size: 17px; margin: 0; font-weight: 650; overflow-wrap: anywhere; }
h2 { font-size: 15px; margin: 14px 0 6px; overflow-wrap: anywhere; }
h3 { font-size: 13px; margin: 14px 0 4px; }
h4 { font-size: 12px; margin: 8px 0 4px; color: var(--quiet); font-weight: 600; }
p { margin: 4px 0; }
a { color: var(--accent); text-decoration: none; }
a:hover { text-decoration: underline; }
:focus-visible { outline: 2px solid var(--focus); outline-offset: 1px; }
main:focus-visible, #panel:focus-visible { outline: none; }
[hidden] { display: none !important; }
.unseen { position: fixed; left: -999px; }

/* ---- the head */
body > header { display: flex; align-items: center; gap: 14px; padding: 8px 16px; background: var(--raised); border-bottom: 1px solid var(--line); flex: none; flex-wrap: wrap; }
.brand { font-weight: 700; color: var(--text); white-space: nowrap; }
.brand .book { font-weight: 400; color: var(--quiet); margin-left: 8px; }
nav { display: flex; gap: 2px; flex-wrap: wrap; }
nav a { padding: 4px 10px; border-radius: 6px; color: var(--quiet); }
nav a:hover { background: var(--sunk); text-decoration: none; color: var(--text); }
nav a[aria-current] { background: var(--accent-ground); color: var(--accent); font-weight: 600; }
.search { position: relative; margin-left: auto; display: flex; align-items: center; gap: 8px; }
.search input { width: 300px; max-width: 40vw; }
.search .count { color: var(--quiet); font-size: 12px; white-space: nowrap; }
.search .found { position: absolute; top: 100%; right: 0; z-index: 20; margin: 4px 0 0; padding: 4px; list-style: none; width: 460px; max-width: 90vw; background: var(--ground); border: 1px solid var(--line); border-radius: 8px; box-shadow: 0 6px 24px rgb(0 0 0 / 0.22); }
.search .found a { display: block; padding: 5px 8px; border-radius: 5px; color: var(--text); overflow: hidden; text-overflow: ellipsis; white-space: nowrap; }
.search .found a:hover, .search .found a:focus { background: var(--accent-ground); text-decoration: none; }
.live { font-size: 12px; color: var(--quiet); white-space: nowrap; }
.live.lost { color: var(--failed); font-weight: 600; }

/* ---- controls */
input, select, textarea, button { font: inherit; color: inherit; }
input, select, textarea { background: var(--ground); border: 1px solid var(--line); border-radius: 6px; padding: 4px 8px; }
button, .pill { display: inline-block; background: var(--ground); border: 1px solid var(--line); border-radius: 6px; padding: 4px 12px; cursor: pointer; white-space: nowrap; }
button:hover, .pill:hover { border-color: var(--quiet); text-decoration: none; }
button[aria-disabled="true"], button:disabled { opacity: 0.55; cursor: progress; }
button:disabled { cursor: default; }
.pill { color: var(--accent); border-color: var(--accent); border-radius: 14px; padding: 2px 12px; }
.pill.quiet { color: var(--quiet); border-color: var(--line); }
.small { font-size: 12px; padding: 1px 8px; color: var(--quiet); }
button.danger { background: var(--failed); border-color: var(--failed); color: var(--ground); font-weight: 600; }
button.main { background: var(--accent); border-color: var(--accent); color: var(--ground); font-weight: 600; }
.notices { position: fixed; right: 16px; bottom: 16px; z-index: 40; display: flex; flex-direction: column; gap: 8px; max-width: min(520px, 90vw); }
.notice { display: flex; gap: 12px; align-items: flex-start; justify-content: space-between; padding: 10px 12px; border-radius: 8px; border: 1px solid var(--line); background: var(--raised); box-shadow: 0 4px 16px rgb(0 0 0 / 0.18); overflow-wrap: anywhere; }
.notice.fault { border-color: var(--failed); background: var(--failed-ground); }
.notice.good { border-color: var(--done); background: var(--done-ground); }
dialog { border: 1px solid var(--line); border-radius: 10px; background: var(--ground); color: var(--text); padding: 18px 22px; max-width: min(640px, 92vw); box-shadow: 0 10px 40px rgb(0 0 0 / 0.35); }
dialog::backdrop { background: rgb(10 15 25 / 0.45); }
dialog h2 { margin-top: 0; }
dialog .buttons { display: flex; gap: 10px; justify-content: flex-end; margin-top: 16px; }
.keys th { text-align: left; padding: 3px 18px 3px 0; white-space: nowrap; font-weight: 600; }
.keys td { padding: 3px 0; }

/* ---- the room */
.room { flex: 1 1 auto; min-height: 0; display: flex; }
main { flex: 1 1 auto; min-width: 0; min-height: 0; display: flex; outline: none; }
main > * { flex: 1 1 auto; min-width: 0; }
.view { display: flex; flex-direction: column; min-height: 0; padding: 12px 16px; gap: 8px; }
.bar { display: flex; align-items: center; gap: 10px; flex-wrap: wrap; flex: none; }
.bar .count, .note { color: var(--quiet); font-size: 13px; }
.missing { padding: 40px; }
.missing h1 { margin-bottom: 12px; }
.flow { overflow: auto; min-height: 0; padding-right: 8px; }
.scroller { overflow: auto; min-height: 0; flex: 1 1 auto; border: 1px solid var(--line); border-radius: 8px; position: relative; overscroll-behavior: contain; overflow-anchor: none; }
.empty { color: var(--quiet); }
.scroller > .empty { padding: 24px; }

/* ---- tables */
table { border-collapse: separate; border-spacing: 0; }
.rows { width: 100%; table-layout: fixed; }
.rows th { position: sticky; top: 0; z-index: 1; background: var(--raised); text-align: left; font-weight: 600; font-size: 12px; color: var(--quiet); padding: 6px 10px; border-bottom: 1px solid var(--line); white-space: nowrap; }
.rows td { height: 32px; max-height: 32px; padding: 0 10px; border-bottom: 1px solid var(--sunk); overflow: hidden; text-overflow: ellipsis; white-space: nowrap; }
.rows tr:hover td { background: var(--raised); }
.rows .space td { padding: 0; border: 0; height: 0; max-height: none; background: none; }
.rows td.name { font-weight: 500; }
.rows .number { text-align: right; width: 92px; font-variant-numeric: tabular-nums; }
.rows .time { width: 150px; font-variant-numeric: tabular-nums; color: var(--quiet); }
.rows .status-cell { width: 96px; }
.rows .machine { width: 16%; }
.rows .wide { width: 30%; }
.items .rows .wide { width: 52%; }
.value-cell, .value, .changes bdi { font-family: ui-monospace, "DejaVu Sans Mono", monospace; font-size: 12px; }
.status, .chip { display: inline-block; border-radius: 10px; padding: 0 9px; font-size: 12px; line-height: 19px; font-weight: 600; background: var(--sunk); color: var(--quiet); }
.status.failed, .word.failed { color: var(--failed); background: var(--failed-ground); }
.status.open { color: var(--open); background: var(--open-ground); }
.status.done { color: var(--done); background: var(--done-ground); }
.toggles { display: flex; gap: 6px; }
.toggle.status { border: 1px solid transparent; line-height: 22px; border-radius: 12px; }
.toggle[aria-pressed="true"] { border-color: currentColor; }
.toggle[aria-pressed="false"] { background: none; color: var(--quiet); opacity: 0.75; }
.changes { width: 100%; }
.changes th, .changes td { text-align: left; padding: 4px 12px 4px 0; border-bottom: 1px solid var(--sunk); vertical-align: top; overflow-wrap: anywhere; font-weight: 400; }
.changes thead th { font-size: 12px; color: var(--quiet); font-weight: 600; }
.chip.write { color: var(--accent); background: var(--accent-ground); }
.chip.refused { color: var(--failed); background: var(--failed-ground); }
.limited { max-height: 160px; overflow: auto; }

/* ---- values */
.valued { position: relative; margin: 2px 0 6px; }
.value { margin: 0; padding: 8px 10px; background: var(--sunk); border-radius: 6px; white-space: pre-wrap; overflow-wrap: anywhere; max-height: 340px; overflow: auto; }
.tools { display: flex; gap: 6px; justify-content: flex-end; margin-top: 3px; }
.facts { display: flex; flex-wrap: wrap; gap: 4px 24px; margin: 0; }
.facts div { display: flex; gap: 6px; min-width: 0; }
.facts dt { color: var(--quiet); }
.facts dd { margin: 0; font-weight: 500; overflow-wrap: anywhere; }
.values { display: flex; flex-direction: column; gap: 2px; }
.values details[open] .line-of-value { display: none; }
.values summary { overflow: hidden; text-overflow: ellipsis; white-space: nowrap; }
.line-of-value { font-family: ui-monospace, "DejaVu Sans Mono", monospace; font-size: 12px; color: var(--quiet); }
summary { cursor: pointer; }
.about-execution, .about-cone { flex: none; display: flex; flex-direction: column; gap: 6px; max-height: 45%; overflow: auto; }
.lead { font-size: 14px; }
.acts { display: flex; flex-wrap: wrap; gap: 8px; align-items: center; }
.acts:empty { display: none; }

/* ---- pictures */
.pictured { position: relative; flex: 1 1 auto; min-height: 0; display: flex; }
.picture { background: var(--sunk); cursor: default; }
.sizer { position: relative; min-width: 100%; min-height: 100%; }
.layer { position: absolute; left: 0; transform-origin: 0 0; }
.lines { position: absolute; left: 0; top: 0; overflow: visible; pointer-events: none; }
.line { fill: none; stroke: var(--thread); stroke-width: 1.6; pointer-events: stroke; }
.line.item { stroke: var(--item); stroke-dasharray: 6 3; }
.line.fork, .line.join, .line.start { stroke: var(--branch); }
.line.bound { stroke: var(--bound); stroke-dasharray: 2 3; }
.line.near { stroke-width: 3; }
.silhouette { fill: var(--quiet); fill-opacity: 0.55; }
.band { position: absolute; border-radius: 8px; background: var(--raised); border: 1px solid var(--line); }
.heads { position: sticky; top: 0; height: 26px; z-index: 3; background: var(--raised); border-bottom: 1px solid var(--line); min-width: 100%; }
.head { position: absolute; top: 3px; padding: 0 6px; overflow: hidden; text-overflow: ellipsis; white-space: nowrap; font-weight: 600; font-size: 12px; }
.box { position: absolute; display: flex; flex-direction: column; justify-content: center; padding: 4px 10px; border-radius: 8px; background: var(--box); border: 1px solid var(--line); border-left: 5px solid var(--plain); box-shadow: var(--shadow); overflow: hidden; cursor: pointer; line-height: 1.25; }
.box > span { overflow: hidden; text-overflow: ellipsis; white-space: nowrap; }
.box .step-name { font-size: 11px; color: var(--quiet); }
.box .state { font-weight: 600; }
.box .about { font-size: 11px; color: var(--quiet); }
.box .word { margin-right: 6px; text-transform: none; }
.box.failed { border-color: var(--failed); border-left-color: var(--failed); background: var(--failed-ground); }
.box.failed .word { color: var(--failed); }
.box.caught .word, .box.retried .word { color: var(--open); }
.box[aria-selected="true"] { outline: 3px solid var(--accent); outline-offset: 1px; z-index: 2; }
.box.asked { box-shadow: 0 0 0 2px var(--accent); }
.kind-start { border-left-color: var(--start); }
.kind-call { border-left-color: var(--call); }
.kind-fork, .kind-join { border-left-color: var(--fork); }
.kind-terminate { border-left-color: var(--terminate); }
.collapsed { border-style: dashed; border-left-style: solid; }
.picture:focus-visible { outline-offset: -2px; }
.minimap { position: absolute; right: 22px; bottom: 62px; padding: 6px; line-height: 0; background: var(--raised); border: 1px solid var(--line); border-radius: 8px; opacity: 0.94; cursor: crosshair; touch-action: none; z-index: 4; }
.minimap .marks { fill: var(--quiet); }
.minimap .sight { fill: var(--accent); fill-opacity: 0.15; stroke: var(--accent); stroke-width: 1.5; }
.zoom { position: absolute; right: 22px; bottom: 20px; display: flex; gap: 4px; align-items: center; background: var(--raised); border: 1px solid var(--line); border-radius: 8px; padding: 3px 6px; z-index: 4; }
.zoom button { padding: 0 9px; }
.legend { position: absolute; left: 12px; bottom: 20px; z-index: 4; background: var(--raised); border: 1px solid var(--line); border-radius: 8px; padding: 3px 10px; font-size: 12px; opacity: 0.96; }
.legend ul { list-style: none; margin: 4px 0; padding: 0; display: grid; grid-template-columns: auto auto; gap: 2px 14px; }
.legend li { display: flex; align-items: center; gap: 6px; }
.sample { width: 14px; height: 12px; border: 1px solid var(--line); border-left: 5px solid var(--plain); border-radius: 3px; background: var(--box); }
.sample.kind-start { border-left-color: var(--start); }
.sample.kind-call { border-left-color: var(--call); }
.sample.kind-fork, .sample.kind-join { border-left-color: var(--fork); }
.sample.kind-terminate { border-left-color: var(--terminate); }
.percent { min-width: 46px; text-align: center; font-size: 12px; color: var(--quiet); font-variant-numeric: tabular-nums; }

/* ---- the panel */
#panel { flex: 0 0 380px; overflow: auto; border-left: 1px solid var(--line); padding: 12px 16px; background: var(--ground); outline: none; }
#panel.stale { pointer-events: none; opacity: 0.6; }
.panel-head { display: flex; align-items: center; gap: 8px; }
.panel-head h2 { margin: 0; flex: 1 1 auto; min-width: 0; }
.panel-kind { color: var(--quiet); }
.panel-kind b { color: var(--text); }
.word { border-radius: 10px; padding: 0 6px; }
.chip.kind-call { color: var(--call); }
.chip.kind-fork, .chip.kind-join { color: var(--fork); }
.chip.kind-terminate { color: var(--terminate); }
.related { margin: 0; padding: 0; list-style: none; }
.related li { padding: 1px 0; overflow-wrap: anywhere; }
.reason { color: var(--quiet); font-size: 12px; }
details > summary { padding: 2px 0; }
#panel details > summary { font-weight: 600; font-size: 13px; margin-top: 10px; }
@media (max-width: 860px) {
    #panel { position: fixed; right: 0; top: 0; bottom: 0; width: min(380px, 94vw); z-index: 30; box-shadow: -6px 0 24px rgb(0 0 0 / 0.3); }
    .rows .machine, .rows .time { display: none; }
    .search input { width: 180px; }
}
@media (prefers-reduced-motion: no-preference) {
    .notice { animation: appear 0.18s ease-out; }
    @keyframes appear { from { opacity: 0; transform: translateY(6px); } }
}
@media print {
    html, body { overflow: visible; height: auto; }
    .minimap, .zoom, nav, .search, .notices { display: none; }
}
"####;
