//! All executions: a row for each, what moved last at first.

pub(crate) fn text() -> &'static str {
    OVERVIEW
}

const OVERVIEW: &str = r####"
addView("overview", {
    nav: "Executions",
    title: () => "Executions",
    key: () => "",
    open: async () => {
        await app.source.load();
        return new Overview();
    },
});

class Overview {
    constructor() {
        this.hidden = new Set();
        this.machine = "";
        this.order = [];
        this.text = "";
        this.toggles = el("div", { class: "toggles", role: "group", "aria-label": "Status" });
        this.machines = el("select", { "aria-label": "Machine", change: () => this.pick() });
        this.field = el("input", {
            type: "text", placeholder: "Name has", "aria-label": "Name of an execution has", spellcheck: "false", autocomplete: "off",
            input: later(120, () => this.filter()),
        });
        this.counts = el("span", { class: "count", role: "status" });
        this.table = new RowTable(overviewColumns(), (row) => row.execution, "Executions", "No execution is here.");
        this.element = el("section", { class: "view overview" },
            el("div", { class: "bar" }, el("h1", null, "Executions"), this.toggles, this.machines, this.field, this.counts, slot("overview")),
            this.table.element);
        this.isHeld = false;
        const hold = () => { this.isHeld = true; };
        const free = later(50, () => this.free());
        put(this.table.element, { pointerenter: hold, focusin: hold, pointerleave: free, focusout: free }, []);
        this.refresh();
    }

    opened() {
        this.table.draw();
    }

    news() {
        this.refresh();
    }

    // Rows take their new places once neither pointer nor focus is in the list.
    free() {
        const list = this.table.element;
        if (list.matches(":hover") || list.contains(document.activeElement)) return;
        this.isHeld = false;
        this.refresh();
    }

    refresh() {
        this.drawToggles();
        this.drawMachines();
        this.filter();
    }

    filter() {
        const text = this.field.value.trim().toLowerCase();
        const isIn = (row) => !this.hidden.has(row.status) && (!this.machine || row.machine === this.machine)
            && (!text || row.execution.toLowerCase().includes(text));
        const all = app.source.rowOf;
        const known = this.isHeld ? this.order.filter((name) => all.has(name)) : [];
        const place = new Set(known);
        const rest = [...all.values()].filter((row) => !place.has(row.execution));
        rest.sort((one, other) => other.entry - one.entry || (one.execution < other.execution ? -1 : 1));
        const rows = [...known.map((name) => all.get(name)), ...rest].filter(isIn);
        this.order = rows.map((row) => row.execution);
        this.table.set(rows);
        this.counts.textContent = rows.length === all.size ? "" : counted(rows.length, "execution") + " of " + all.size.toLocaleString("en");
    }

    // A click shows only this status; a click on the only one shows all again.
    toggle(status) {
        const others = STATUSES.filter((other) => other !== status);
        const isOnly = !this.hidden.has(status) && others.every((other) => this.hidden.has(other));
        this.hidden = new Set(isOnly ? [] : others);
        this.isHeld = false;
        this.refresh();
    }

    pick() {
        this.machine = this.machines.value;
        this.isHeld = false;
        this.filter();
    }

    drawToggles() {
        const { counts } = app.source;
        STATUSES.forEach((status, place) => {
            const made = this.toggles.children[place] || this.toggles.appendChild(
                button("", () => this.toggle(status), { class: "toggle status " + status, "data-status": status }));
            const text = status + " " + (counts[status] || 0).toLocaleString("en");
            if (made.textContent !== text) made.textContent = text;
            made.setAttribute("aria-pressed", String(!this.hidden.has(status)));
        });
    }

    drawMachines() {
        const names = Object.keys(app.source.machineCounts).sort();
        const drawn = [...this.machines.options].map((option) => option.value).join(" ");
        if (drawn === ["", ...names].join(" ")) return;
        fill(this.machines, el("option", { value: "" }, "All machines"), names.map((name) => el("option", { value: name }, shown(name))));
        this.machines.value = names.includes(this.machine) ? this.machine : "";
        this.machine = this.machines.value;
    }
}

function overviewColumns() {
    const columns = [
        {
            title: "Name", class: "name",
            same: (row, before) => row.execution === before.execution,
            cell: (row) => executionLink(row.execution),
        },
        { title: "Machine", class: "machine", cell: (row) => shown(row.machine) },
        { title: "Status", class: "status-cell", same: (row, before) => row.status === before.status, cell: (row) => statusMark(row.status) },
        { title: "State", class: "wide", cell: (row) => placeText(row), hint: (row) => placeText(row) },
        { title: "Steps", class: "number", cell: (row) => row.steps.toLocaleString("en") },
        { title: "Last entry", class: "number", cell: (row) => String(row.entry) },
    ];
    if (app.source.canAsk) columns.push({ title: "Time", class: "time", cell: (row) => timeText(app.source.when(row.entry)) });
    return columns;
}

function placeText(row) {
    const state = row.state === null ? "" : shown(row.state);
    return row.error === null ? state : [state, shown(row.error)].filter(Boolean).join(": ");
}
"####;
