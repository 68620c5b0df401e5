//! Boxes of steps, and the scene of an execution: its threads as lanes, time going down.

pub(crate) fn text() -> &'static str {
    LANES
}

const LANES: &str = r####"
const BOX = { w: 196, h: 62, gapX: 28, gapY: 26, edge: 16 };

function stepBox(row, more) {
    const word = outcomeWord(row);
    return {
        id: row.step,
        w: BOX.w,
        h: BOX.h,
        word,
        label: () => boxLabel(row),
        draw: () => drawnStep(row, word, more),
    };
}

function drawnStep(row, word, more) {
    const classes = ["box", "kind-" + row.kind, word, (more && more.class) || ""].filter(Boolean).join(" ");
    return el("div", { class: classes, title: row.step + (row.key ? "\n" + short(callText(row), 300) : "") },
        el("span", { class: "step-name" }, el("bdi", null, row.step)),
        el("span", { class: "state" }, el("bdi", null, short(stateName(row), 60))),
        el("span", { class: "about" },
            word ? [el("b", { class: "word" }, word), " "] : null,
            row.key ? el("bdi", { class: "key" }, callText(row)) : el("span", { class: "kind" }, kindText(row))));
}

function linesOf(rows) {
    const found = [];
    for (const row of rows) {
        for (const on of row.on) found.push({ from: on.step, to: row.step, reason: on.reason, title: () => lineTitle(on, row) });
    }
    return found;
}

function lineTitle(on, row) {
    const key = on.reason === "item" && row.key ? " " + short(keyText(row.key), 80) : "";
    return row.step + " depends on " + on.step + ": " + REASONS[on.reason] + key;
}

// Steps in the order in which they were taken. A step is below the one before it in its thread, below those on which it depends, and
// never above an earlier step.
function lanesScene(threads) {
    const rows = threads.flatMap((thread) => thread.steps).sort((one, other) => one.entry - other.entry);
    const lane = new Map(threads.map((thread, place) => [thread.thread, place]));
    const level = new Map();
    const lastOf = new Map();
    let lowest = 0;
    for (const row of rows) {
        const above = row.on.map((on) => level.get(on.step)).filter((found) => found !== undefined);
        const own = lastOf.has(row.thread) ? lastOf.get(row.thread) + 1 : 0;
        const waited = row.waited ? lowest + 1 : 0; // of the branches for which it waited `on` names one
        lowest = Math.max(lowest, own, waited, ...above.map((found) => found + 1));
        level.set(row.step, lowest);
        lastOf.set(row.thread, lowest);
    }
    const boxes = rows.map((row) => ({
        ...stepBox(row),
        x: BOX.edge + lane.get(row.thread) * (BOX.w + BOX.gapX),
        y: BOX.edge + level.get(row.step) * (BOX.h + BOX.gapY),
    }));
    return {
        width: 2 * BOX.edge + Math.max(1, threads.length) * (BOX.w + BOX.gapX) - BOX.gapX,
        height: 2 * BOX.edge + (lowest + 1) * (BOX.h + BOX.gapY) - BOX.gapY,
        boxes,
        lines: linesOf(rows),
        heads: threads.map((thread, place) => ({ x: BOX.edge + place * (BOX.w + BOX.gapX), w: BOX.w, text: shown(thread.thread) })),
        bands: [],
    };
}
"####;
