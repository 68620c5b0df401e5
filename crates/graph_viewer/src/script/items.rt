//! Items: the table, and the history of one.

pub(crate) fn text() -> &'static str {
    ITEMS
}

const ITEMS: &str = r####"
const ITEM_PAGE = 1000;
const MOST_ITEMS = 50000;

addView("items", {
    nav: "Items",
    title: () => "Items",
    key: () => "",
    open: async () => {
        const view = new ItemsView();
        await view.load();
        return view;
    },
});

addView("item", {
    under: "items",
    title: (params) => params.get("item"),
    key: (params) => params.get("item"),
    open: async (params) => {
        const view = new ItemView(params.get("item"));
        await view.load();
        return view;
    },
});

// All items, page by page.
async function allItems() {
    const found = [];
    let after = "";
    while (found.length < MOST_ITEMS) {
        const answer = await app.source.ask("item" + after + " most " + ITEM_PAGE);
        found.push(...answer.items);
        if (!answer.more || !answer.items.length) break;
        after = " after " + jsonText(found[found.length - 1].key);
    }
    return found;
}

class ItemsView {
    constructor() {
        this.items = [];
        this.again = steadily(() => this.load().catch(() => {}));
        this.field = el("input", {
            type: "text", placeholder: "Key or value has", "aria-label": "Key or value has", spellcheck: "false", autocomplete: "off",
            input: later(120, () => this.filter()),
        });
        this.count = el("span", { class: "count", role: "status" });
        const columns = [
            { title: "Key", class: "name", cell: (row) => itemLink(row.key), same: (row, before) => row.word === before.word },
            { title: "Item", class: "wide value-cell", cell: (row) => el("bdi", null, itemText(row.item, 200)), hint: (row) => itemText(row.item, 2000) },
            { title: "Written by", class: "name", cell: (row) => (row.writer ? stepLink(row.writer) : "") },
        ];
        this.table = new RowTable(columns, (row) => row.word, "Items", "No item is here.");
        const note = app.source.canAsk ? null : el("span", { class: "note" }, "of the steps on this page");
        this.element = el("section", { class: "view items" },
            el("div", { class: "bar" }, el("h1", null, "Items"), note, this.field, this.count), this.table.element);
    }

    async load() {
        const items = await allItems();
        const before = new Map(this.items.map((row) => [row.word, row]));
        this.items = items.map((row) => {
            const made = { ...row, word: jsonText(row.key), text: (keyText(row.key) + " " + jsonText(row.item)).toLowerCase() };
            const old = before.get(made.word);
            return old && old.text === made.text && old.writer === made.writer ? old : made;
        });
        this.filter();
    }

    filter() {
        const text = this.field.value.trim().toLowerCase();
        const rows = this.items.filter((row) => !text || row.text.includes(text));
        this.table.set(rows);
        this.count.textContent = text ? rows.length.toLocaleString("en") + " of " + this.items.length.toLocaleString("en") : counted(rows.length, "item");
    }

    opened() {
        this.table.draw();
    }

    news(news) {
        if (news.entries || news.all) this.again();
    }
}

class ItemView {
    constructor(word) {
        this.word = word;
        this.element = el("section", { class: "view item" });
        this.again = steadily(() => this.look());
    }

    async load() {
        const answer = await app.source.ask("item " + this.word);
        if (saysTheSame(answer, this.answer)) return;
        this.answer = answer;
        const text = jsonText(answer.key);
        const rows = answer.accesses.map((row) => el("tr", { class: "access-" + row.access },
            el("th", { scope: "row" }, stepLink(row.step)),
            el("td", null, el("span", { class: "chip " + row.access }, ACCESSES[row.access].replace(" at", ""))),
            el("td", null, el("bdi", { title: itemText(row.before, 2000) }, itemText(row.before))),
            el("td", null, row.access === "write" ? el("bdi", { title: itemText(row.after, 2000) }, itemText(row.after)) : "")));
        const head = el("tr", null, ["Step", "What it does", "Item before", "Item after"].map((name) => el("th", { scope: "col" }, name)));
        fill(this.element,
            el("div", { class: "bar" }, el("h1", null, el("bdi", null, short(keyText(answer.key), 120))), copyButton(text, "the key"),
                link("#items", "All items", { class: "pill quiet" })),
            el("div", { class: "flow" },
                el("h2", null, "Now"),
                answer.now === null ? el("p", { class: "empty" }, "There is no item of this key now.") : valueBlock(answer.now, "the item"),
                el("h2", null, "Who wrote and read it"),
                answer.accesses.length ? el("table", { class: "changes" }, el("thead", null, head), el("tbody", null, rows))
                    : el("p", { class: "empty" }, "No remaining step has accessed it: it is as the table began.")));
    }

    news(news) {
        if (news.entries || news.all) this.again();
    }

    async look() {
        try {
            await this.load();
        } catch (fault) {
            app.key = null;
            if (this.element.isConnected) route();
        }
    }
}
"####;
