//! A table of many rows, of which those are drawn that are in sight.

pub(crate) fn text() -> &'static str {
    TABLE
}

const TABLE: &str = r####"
const ROW_HEIGHT = 32;
const ROWS_AROUND = 12;

// `columns` have `title`, `class` and `cell(row)`, which gives a text, an element or a list. `key(row)` is a row's name.
class RowTable {
    constructor(columns, key, label, empty) {
        this.columns = columns;
        this.key = key;
        this.rows = [];
        this.drawn = new Map();
        this.above = el("tr", { class: "space", "aria-hidden": "true" }, el("td", { colspan: columns.length }));
        this.below = el("tr", { class: "space", "aria-hidden": "true" }, el("td", { colspan: columns.length }));
        this.body = el("tbody", null, this.above, this.below);
        this.head = el("thead", null, el("tr", null, columns.map((column) => el("th", { scope: "col", class: column.class }, column.title))));
        this.table = el("table", { class: "rows", "aria-label": label }, this.head, this.body);
        this.empty = el("p", { class: "empty", hidden: true }, empty || "There is nothing here.");
        this.element = el("div", { class: "scroller", tabindex: "0", role: "region", "aria-label": label }, this.table, this.empty);
        this.redraw = nextFrame(() => this.draw());
        this.element.addEventListener("scroll", this.redraw, { passive: true });
        new ResizeObserver(this.redraw).observe(this.element);
    }

    // Puts rows in the place of those that are there. What is drawn stays the same element, with its focus.
    set(rows) {
        this.rows = rows;
        this.table.setAttribute("aria-rowcount", String(rows.length));
        this.empty.hidden = rows.length > 0;
        this.draw();
    }

    draw() {
        const top = Math.max(0, this.element.scrollTop - this.head.offsetHeight);
        const first = Math.max(0, Math.floor(top / ROW_HEIGHT) - ROWS_AROUND);
        const count = Math.ceil(this.element.clientHeight / ROW_HEIGHT) + 2 * ROWS_AROUND;
        const wanted = this.rows.slice(first, first + count);
        this.above.firstChild.style.height = first * ROW_HEIGHT + "px";
        this.below.firstChild.style.height = Math.max(0, this.rows.length - first - wanted.length) * ROW_HEIGHT + "px";
        const names = new Set(wanted.map(this.key));
        for (const [name, made] of this.drawn) {
            if (!names.has(name)) {
                made.element.remove();
                this.drawn.delete(name);
            }
        }
        let before = this.above;
        wanted.forEach((row, place) => {
            const element = this.drawRow(row, first + place);
            if (before.nextSibling !== element) before.after(element);
            before = element;
        });
    }

    drawRow(row, place) {
        const name = this.key(row);
        let made = this.drawn.get(name);
        if (!made) {
            made = { element: el("tr", null, this.columns.map((column) => el("td", { class: column.class }))), row: null };
            this.drawn.set(name, made);
        }
        made.element.setAttribute("aria-rowindex", String(place + 1));
        if (made.row !== row) {
            this.columns.forEach((column, number) => this.drawCell(made.element.children[number], column, row, made.row));
            made.row = row;
        }
        return made.element;
    }

    // A cell whose text is as before stays as it is: a link in it keeps its focus.
    drawCell(cell, column, row, before) {
        if (before && column.same && column.same(row, before)) return;
        const content = [column.cell(row)].flat();
        if (before && content.every((part) => typeof part === "string") && cell.textContent === content.join("")) return;
        fill(cell, content);
        if (column.hint) cell.title = column.hint(row);
    }

    // Draws all that is in sight anew, as after a change of what is beside the rows.
    again() {
        for (const made of this.drawn.values()) made.row = null;
        this.draw();
    }
}
"####;
