//! The panel of a step, at the side.

pub(crate) fn text() -> &'static str {
    PANEL
}

const PANEL: &str = r####"
async function showPanel(step) {
    const isNew = app.panelStep !== step;
    app.panelStep = step;
    // what it still shows is another step's, and isn't to be pressed
    app.panel.classList.toggle("stale", isNew);
    let answer;
    try {
        answer = await app.source.ask("show " + step);
    } catch (fault) {
        if (app.panelStep === step) closePanel(true);
        return;
    }
    if (app.panelStep !== step) return;
    if (!isNew && !app.panel.hidden && saysTheSame(answer, app.panelAnswer)) return;
    app.panelAnswer = answer;
    app.panel.classList.remove("stale");
    const top = isNew ? 0 : app.panel.scrollTop;
    const open = [...app.panel.querySelectorAll("details[open]")].map((made) => made.dataset.name);
    const had = app.panel.contains(document.activeElement) ? document.activeElement.textContent : null;
    fill(app.panel, panelOf(answer, isNew ? null : open));
    app.panel.hidden = false;
    app.panel.scrollTop = top;
    if (had !== null) {
        const again = [...app.panel.querySelectorAll("a, button, summary")].find((made) => made.textContent === had);
        (again || app.panel).focus();
    }
    if (app.controller && app.controller.picture) app.controller.picture.redraw();
}

function closePanel(isQuiet) {
    if (app.panel.hidden) return;
    app.panel.hidden = true;
    app.panelStep = null;
    if (isQuiet) return;
    app.wantsPanel = false;
    focusView();
}

const lookAtPanel = steadily(async () => {
    if (app.panelStep && !app.panel.hidden) await showPanel(app.panelStep);
});

function refreshPanel(news) {
    if (news.all || news.entries) lookAtPanel();
}

function panelOf(answer, open) {
    const row = answer.step;
    const word = outcomeWord(row);
    const execution = executionOf(row.step);
    return [
        el("div", { class: "panel-head" },
            el("h2", null, el("bdi", null, row.step)), copyButton(row.step, "the step's name"),
            button("\u00d7", () => closePanel(), { class: "small close", "aria-label": "Close the panel (Esc)", title: "Close (Esc)" })),
        el("p", { class: "panel-kind" }, el("span", { class: "chip kind-" + row.kind }, kindText(row)), " ",
            el("b", null, el("bdi", null, stateName(row))), row.type && row.kind !== "plain" ? " (" + row.type + ")" : "",
            word ? [" ", el("b", { class: "word " + word }, word)] : null),
        row.outcome ? el("p", null, "It " + (row.kind === "start" ? "starts " + execution + ", which " : "") + outcomeText(row.outcome) + ".") : null,
        row.key ? el("p", null, ACCESSES[row.access] + " ", itemLink(row.key)) : null,
        el("p", { class: "acts" },
            link(stepAddress(row.step, { show: "plan" }), "What would go?", { class: "pill" }), " ",
            link(stepAddress(row.step, { show: "causes" }), "What led to it", { class: "pill" }), " ",
            link(stepAddress(row.step), "In " + execution, { class: "pill quiet" })),
        el("div", { class: "acts" }, slot("step", row, answer)),
        related("What it depends on", row.on, "on no other step"),
        row.waited ? el("p", null, "It waited for all branches up to ", el("bdi", null, row.waited), ".") : null,
        related("What depends on it", answer.dependents, "no step"),
        changedPart("item", "Item", row.items, row.items && row.items.before, row.items && row.items.after, open),
        framePart(row, open),
    ];
}

function related(title, steps, none) {
    const items = steps.slice(0, 200).map((one) => el("li", null, stepLink(one.step), el("span", { class: "reason" }, " " + REASONS[one.reason])));
    const more = steps.length > 200 ? el("li", null, "and " + counted(steps.length - 200, "other")) : null;
    return [el("h3", null, title), steps.length ? el("ul", { class: "related" }, items, more) : el("p", { class: "empty" }, none)];
}

function part(name, title, isOpen, content) {
    return el("details", { "data-name": name, open: isOpen }, el("summary", null, title), content);
}

function changedPart(name, title, is, before, after, open) {
    if (!is) return null;
    const same = sameValue(before, after);
    const block = (value, what) => (value === null ? el("p", { class: "empty" }, "no item") : valueBlock(value, what));
    const content = same
        ? [el("h4", null, "Before and after"), block(after, "the item")]
        : [el("h4", null, "Before"), block(before, "the item before"), el("h4", null, "After"), block(after, "the item after")];
    return part(name, title + (same ? ", unchanged" : " before and after"), open ? open.includes(name) : true, content);
}

function framePart(row, open) {
    const { before, after } = row.frames;
    const content = [
        el("h4", null, "Before: " + frameText(before)),
        before ? valueBlock(before.input, "the input before") : null,
        el("h4", null, "After: " + frameText(after)),
        after.phase === "failed" && after.cause ? el("p", null, el("bdi", null, shown(after.cause))) : null,
        valueBlock(after.phase === "done" ? after.output : after.input, "the value after"),
    ];
    return part("frame", "Its thread before and after", open ? open.includes("frame") : !row.items, content);
}
"####;
