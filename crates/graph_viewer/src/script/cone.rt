//! What depends on what: the steps on which one depends, or those that depend on it, across executions.

pub(crate) fn text() -> &'static str {
    CONE
}

const CONE: &str = r####"
const MOST_OPEN = 300;
const COLLAPSED = { w: 196, h: 44, columns: 5 };

addView("cone", {
    under: "overview",
    title: (params) => params.get("step") + (params.get("show") === "plan" ? ": what would go" : ": what led to it"),
    key: (params) => params.get("show") + " " + params.get("step"),
    open: async (params) => {
        const view = new ConeView(params.get("step"), params.get("show") === "plan");
        await view.load();
        view.at = params.get("at") || view.step;
        return view;
    },
});

class ConeView {
    constructor(step, isPlan) {
        this.step = step;
        this.isPlan = isPlan;
        this.open = new Set();
        this.again = steadily(() => this.look());
        this.head = el("div", { class: "about-cone" });
        const label = isPlan ? "What depends on " + step : "What " + step + " depends on";
        this.picture = new Picture(label, (id, isPressed) => this.chosen(id, isPressed));
        this.element = el("section", { class: "view cone" }, this.head, this.picture.element);
    }

    async load() {
        const { source } = app;
        const answer = await source.ask((this.isPlan ? "plan " : "causes ") + this.step);
        this.answer = answer;
        const own = this.isPlan ? [] : [(await source.ask("show " + this.step)).step];
        // copies, since they get outcomes, and the answer is compared with the next one
        this.rows = [...own, ...(this.isPlan ? answer.steps : answer.causes)].map((row) => ({ ...row })).reverse();
        this.isLarge = this.rows.length > MOST_OPEN;
        this.draw();
        this.findOutcomes();
    }

    draw() {
        this.drawHead();
        this.picture.show(coneScene(this.rows, this));
    }

    isOpen(execution) {
        return !this.isLarge || this.open.has(execution) || execution === executionOf(this.step);
    }

    drawHead() {
        const { answer, step } = this;
        const other = this.isPlan ? ["causes", "What led to it"] : ["plan", "What would go?"];
        const executions = new Set(this.rows.map((row) => executionOf(row.step)));
        const title = this.isPlan ? [stepLink(step), ": what would go"] : [stepLink(step), ": what led to it"];
        fill(this.head,
            el("div", { class: "bar" }, el("h1", null, title), link(stepAddress(step, { show: other[0] }), other[1], { class: "pill" }),
                this.isLarge ? busyButton("Open all bands", () => this.openAll(executions), { class: "small" }) : null),
            this.isPlan ? planHead(answer) : causesHead(step, this.rows.length - 1, executions),
            this.isPlan ? el("div", { class: "acts" }, slot("plan", answer, this)) : null);
    }

    openAll(executions) {
        for (const execution of executions) this.open.add(execution);
        this.draw();
        this.picture.select(this.at, true);
    }

    // Rows of a plan don't say which steps failed, were caught or are tried again. The executions do, at least the first ones.
    async findOutcomes() {
        if (!app.source.canAsk) return;
        const executions = [...new Set(this.rows.map((row) => executionOf(row.step)))].filter((name) => this.isOpen(name)).slice(0, 40);
        const answers = await Promise.all(executions.map((name) => app.source.ask("show " + name).catch(() => ({ threads: [] }))));
        const found = new Map(answers.flatMap((answer) => answer.threads.flatMap((thread) => thread.steps.map((row) => [row.step, row.outcome]))));
        let isNew = false;
        for (const row of this.rows) {
            if (!row.outcome && found.has(row.step)) {
                row.outcome = found.get(row.step);
                isNew = isNew || outcomeWord(row) !== "";
            }
        }
        if (isNew && this.element.isConnected) {
            this.picture.show(coneScene(this.rows, this));
            this.picture.select(this.picture.selected || this.at, false);
        }
    }

    opened() {
        this.picture.resize();
        this.picture.fitIfReadable();
        this.picture.select(this.boxOf(this.at), true);
        app.toMiddle = false;
    }

    boxOf(step) {
        return this.picture.byId.has(step) ? step : "execution:" + executionOf(step);
    }

    update(params) {
        this.at = params.get("at") || this.step;
        this.picture.select(this.boxOf(this.at), app.toMiddle);
        app.toMiddle = false;
    }

    chosen(id, isPressed) {
        if (id.startsWith("execution:")) {
            if (isPressed) this.openBand(id.slice("execution:".length));
            else this.picture.select(id, false);
            return;
        }
        if (isPressed) app.wantsPanel = true;
        go({ step: this.step, show: this.isPlan ? "plan" : "causes", at: id === this.step ? null : id }, !isPressed);
    }

    openBand(execution) {
        this.open.add(execution);
        this.draw();
        const first = this.rows.find((row) => executionOf(row.step) === execution);
        this.picture.select(first.step, false);
        this.findOutcomes();
    }

    news(news) {
        if (news.isPausing) this.drawHead();
        if (news.all || news.entries) this.again();
    }

    async look() {
        try {
            const answer = await app.source.ask((this.isPlan ? "plan " : "causes ") + this.step);
            if (saysTheSame(answer, this.answer)) return;
            await this.load();
            this.picture.select(this.boxOf(this.at), false);
        } catch (fault) {
            app.key = null;
            if (this.element.isConnected) route();
        }
    }
}

// ---- heads

function namesOf(names, most) {
    const parts = [...names].slice(0, most).map(executionLink);
    const rest = names.size === undefined ? names.length - most : names.size - most;
    return [parts.flatMap((part, place) => (place ? [", ", part] : [part])), rest > 0 ? " and " + counted(rest, "other") : ""];
}

function planHead(answer) {
    const said = el("p", { class: "lead" }, "A rollback of ", el("b", null, shown(answer.step)), " takes back ",
        el("b", null, counted(answer.count, "step")), " of ", el("b", null, counted(answer.executions.length, "execution")), ": ",
        namesOf(answer.executions, 6), ".");
    if (!answer.items.length) return [said, el("p", { class: "lead" }, "No item changes.")];
    const rows = answer.items.slice(0, 100).map((item) => el("tr", null,
        el("th", { scope: "row" }, itemLink(item.key)),
        el("td", null, el("bdi", { title: itemText(item.now, 2000) }, itemText(item.now))),
        el("td", null, el("bdi", { title: itemText(item.then, 2000) }, itemText(item.then)))));
    const head = el("tr", null, ["Item", "Is now", "Becomes"].map((text) => el("th", { scope: "col" }, text)));
    const table = el("table", { class: "changes" }, el("thead", null, head), el("tbody", null, rows));
    return [said, el("details", { open: answer.items.length <= 4 },
        el("summary", null, counted(answer.items.length, "item changes", "items change")),
        el("div", { class: "limited" }, table))];
}

function causesHead(step, count, executions) {
    if (!count) return el("p", { class: "lead" }, el("b", null, shown(step)), " depends on no other step.");
    return el("p", { class: "lead" }, el("b", null, shown(step)), " depends on ", el("b", null, counted(count, "step")), " of ",
        el("b", null, counted(executions.size, "execution")), ": ", namesOf(executions, 6),
        ". A rollback of one of these takes it back, too.");
}

// ---- the scene

// How far each step is from the chosen one, along the longest way. Rows come in the order in which the steps were taken.
function distances(rows, step, isPlan) {
    const far = new Map([[step, 0]]);
    const within = new Set(rows.map((row) => row.step));
    if (isPlan) {
        for (const row of rows) {
            const above = [...row.on.map((on) => on.step), row.after].filter((name) => within.has(name)).map((name) => far.get(name));
            if (row.step !== step) far.set(row.step, 1 + Math.max(0, ...above));
        }
        return far;
    }
    for (const row of [...rows].reverse()) {
        if (within.has(row.needed_for)) far.set(row.step, Math.max(far.get(row.step) || 0, 1 + far.get(row.needed_for)));
        const own = far.get(row.step) || 0;
        for (const on of row.on) {
            if (within.has(on.step)) far.set(on.step, Math.max(far.get(on.step) || 0, own + 1));
        }
    }
    const most = Math.max(...far.values());
    for (const [name, distance] of far) far.set(name, most - distance);
    return far;
}

function coneScene(rows, view) {
    const far = distances(rows, view.step, view.isPlan);
    const groups = new Map();
    for (const row of rows) {
        const name = executionOf(row.step);
        if (!groups.has(name)) groups.set(name, { name, rows: [], near: Infinity });
        const group = groups.get(name);
        group.rows.push(row);
        group.near = Math.min(group.near, far.get(row.step));
    }
    const own = executionOf(view.step);
    const order = [...groups.values()].sort((one, other) =>
        (other.name === own) - (one.name === own) || one.near - other.near || (one.name < other.name ? -1 : 1));
    const scene = { boxes: [], lines: [], heads: [], bands: [], width: BOX.edge, height: 0 };
    for (const group of order.filter((one) => view.isOpen(one.name))) addBand(scene, group, far, view.step);
    addCollapsed(scene, order.filter((one) => !view.isOpen(one.name)));
    scene.height += BOX.edge;
    for (const band of scene.bands) band.h = scene.height - 2 * band.y;
    scene.lines = coneLines(rows, view);
    return scene;
}

// A band: the steps of an execution, a column for each of its threads.
function addBand(scene, group, far, step) {
    const threads = [...new Set(group.rows.map((row) => row.thread))].sort(compareThreads);
    const column = new Map(threads.map((thread, place) => [thread, place]));
    const left = scene.width;
    const width = threads.length * (BOX.w + BOX.gapX) - BOX.gapX;
    for (const row of group.rows) {
        const y = BOX.edge + far.get(row.step) * (BOX.h + BOX.gapY);
        scene.boxes.push({
            ...stepBox(row, { class: row.step === step ? "asked" : "" }),
            x: left + 10 + column.get(row.thread) * (BOX.w + BOX.gapX),
            y,
        });
        scene.height = Math.max(scene.height, y + BOX.h);
    }
    scene.heads.push({ x: left, w: width + 20, text: group.name, draw: () => put(executionLink(group.name), { tabindex: "-1" }, []) });
    scene.bands.push({ x: left, y: 4, w: width + 20, h: 0 });
    scene.width = left + width + 20 + BOX.gapX;
}

// Executions that are one box each, in rows as near as their first steps.
function addCollapsed(scene, groups) {
    if (!groups.length) return;
    const left = scene.width + BOX.gapX;
    const high = BOX.h + BOX.gapY;
    let [row, column] = [0, 0];
    for (const group of groups) {
        if (group.near > row || column === COLLAPSED.columns) {
            row = Math.max(group.near, column === COLLAPSED.columns ? row + 1 : row);
            column = 0;
        }
        const box = collapsedBox(group);
        scene.boxes.push({ ...box, x: left + column * (COLLAPSED.w + 16), y: BOX.edge + row * high });
        scene.height = Math.max(scene.height, BOX.edge + row * high + COLLAPSED.h);
        column += 1;
    }
    scene.heads.push({ x: left, w: COLLAPSED.columns * (COLLAPSED.w + 16), text: "Other executions: a click opens one" });
    scene.width = left + COLLAPSED.columns * (COLLAPSED.w + 16);
}

function collapsedBox(group) {
    const text = counted(group.rows.length, "step");
    return {
        id: "execution:" + group.name,
        w: COLLAPSED.w,
        h: COLLAPSED.h,
        label: () => group.name + ", " + text + ", closed",
        draw: () => el("div", { class: "box collapsed", title: group.name + ": " + text + ". A click shows them." },
            el("span", { class: "step-name" }, el("bdi", null, group.name)), el("span", { class: "about" }, text)),
    };
}

function coneLines(rows, view) {
    const within = new Set(rows.map((row) => row.step));
    const end = (step) => (view.isOpen(executionOf(step)) ? step : "execution:" + executionOf(step));
    const found = new Map();
    for (const line of [...linesOf(rows), ...waitLines(rows, within)]) {
        if (!within.has(line.from)) continue;
        const [from, to] = [end(line.from), end(line.to)];
        if (from !== to && !found.has(from + ">" + to)) found.set(from + ">" + to, { ...line, from, to });
    }
    return [...found.values()];
}

// Lines to first moves from steps for which they waited, and which `on` doesn't name: in a plan the latest one, and of causes those that are
// needed for nothing else.
function waitLines(rows, within) {
    const byName = new Map(rows.map((row) => [row.step, row]));
    const found = [];
    const add = (from, row) => {
        if (!row || !row.waited || row.on.some((on) => on.step === from)) return;
        const on = { step: from, reason: "bound" };
        found.push({ from, to: row.step, reason: on.reason, title: () => lineTitle(on, row) });
    };
    for (const row of rows) {
        if (row.after && row.reason === "bound") add(row.after, row);
        if (row.needed_for && (row.reason === "bound" || !row.reason)) add(row.step, byName.get(row.needed_for));
    }
    return found;
}
"####;
