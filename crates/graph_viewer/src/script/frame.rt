//! What is around each view: the head with its search, the panel at the side, notices, and the way from an address to a view.

pub(crate) fn text() -> &'static str {
    FRAME
}

const FRAME: &str = r####"
// What the console's own script adds: functions that give elements for a place of a view.
const slots = {};
const views = new Map();
const app = { source: null, view: null, controller: null, key: null, toMiddle: true, wantsPanel: true, opened: 0 };

function slot(name, ...given) {
    return slots[name] ? [slots[name](...given)].flat().filter(Boolean) : [];
}

// A view has `title(params)`, `key(params)` and `open(params)`, which gives its controller: `element`, and if it has them `update(params)`,
// `news(news)` and `focus()`. `nav` is its name in the head.
function addView(name, view) {
    views.set(name, view);
}

// ---- the head

const SEARCH_HINT = "Search steps: name, state, error, key";

function buildFrame() {
    app.nav = el("nav", { "aria-label": "Views" });
    app.search = new Search();
    app.status = el("div", { class: "live", role: "status" });
    app.notices = el("div", { class: "notices", role: "alert" });
    app.main = el("main", { id: "main", tabindex: "-1" });
    app.panel = el("aside", { id: "panel", "aria-label": "Step", hidden: true, tabindex: "-1" });
    app.bookName = el("span", { class: "book" });
    const home = el("a", { href: "#overview", class: "brand" }, "rollback", app.bookName);
    const keys = button("?", () => showKeys(), { class: "small", title: "Keys (?)", "aria-label": "Keys" });
    app.head = el("header", null, home, app.nav, app.search.element, ...slot("head"), app.status, keys);
    document.body.append(app.head, app.notices, el("div", { class: "room" }, app.main, app.panel));
    document.addEventListener("keydown", pressedAnywhere);
    window.addEventListener("hashchange", () => {
        app.wantsPanel = true;
        route();
    });
}

function buildNav() {
    for (const [name, view] of views) {
        if (view.nav) app.nav.append(link("#" + name, view.nav, { "data-view": name }));
    }
}

function notice(text, kind, stays) {
    const made = el("div", { class: "notice " + (kind || "") }, el("span", null, text),
        button("\u00d7", () => made.remove(), { class: "small", "aria-label": "Close this message" }));
    app.notices.append(made);
    if (!stays) setTimeout(() => made.remove(), 8000);
    return made;
}

// ---- keys

const KEYS = [
    ["/", "go to the search"],
    ["Enter, Shift + Enter", "in the search: the next step, the one before"],
    ["arrow down, up", "in a picture: along a line, to what depends on the step, and to what it depends on"],
    ["arrow left, right", "in a picture: to the nearest step beside"],
    ["Enter", "in a picture: open the step's panel"],
    ["+, -, 0", "in a picture: zoom in, zoom out, show all"],
    ["Esc", "close the panel"],
    ["?", "show these keys"],
];

function pressedAnywhere(event) {
    const isTyping = event.target.closest && event.target.closest("input, textarea, select, dialog");
    if (event.key === "Escape" && !document.querySelector("dialog[open]")) {
        if (event.target === app.search.field && app.search.field.value) return;
        if (!app.panel.hidden) {
            event.preventDefault();
            closePanel();
        }
        return;
    }
    if (isTyping || event.ctrlKey || event.metaKey || event.altKey) return;
    if (event.key === "/") {
        event.preventDefault();
        app.search.field.focus();
    } else if (event.key === "?") {
        event.preventDefault();
        showKeys();
    }
}

function showKeys() {
    const rows = KEYS.map(([key, does]) => el("tr", null, el("th", { scope: "row" }, key), el("td", null, does)));
    showDialog("Keys", [el("table", { class: "keys" }, el("tbody", null, rows))], [["Close", null]]);
}

// A dialog of the browser's own: the focus is on the first button, and afterwards where it was. Each button is `[text, does, class]`.
function showDialog(title, content, buttons) {
    const before = document.activeElement;
    const dialog = el("dialog", { "aria-label": title });
    const made = buttons.map(([text, does, kind]) => button(text, () => {
        dialog.close();
        if (does) does();
    }, { class: kind }));
    put(dialog, null, [el("h2", null, title), content, el("div", { class: "buttons" }, made)]);
    dialog.addEventListener("close", () => {
        dialog.remove();
        if (before && before.isConnected) before.focus();
    });
    document.body.append(dialog);
    dialog.showModal();
    made[0].focus();
    return dialog;
}

// ---- from an address to a view

function go(pairs, replaces) {
    const hash = addressOf(pairs);
    if (hash === location.hash) {
        route();
    } else if (replaces) {
        history.replaceState(null, "", hash);
        route();
    } else {
        location.hash = hash;
    }
}

function viewOf(params) {
    if (params.has("step")) return ["plan", "causes"].includes(params.get("show")) ? "cone" : "execution";
    for (const name of params.keys()) {
        if (views.has(name)) return name;
    }
    return "overview";
}

function startParams() {
    const params = readAddress(location.hash);
    if (!params.size && app.source.first) params.set("step", app.source.first);
    return params;
}

async function route() {
    const params = startParams();
    const name = viewOf(params);
    const view = views.get(name);
    document.title = [view.title(params), app.source.name, "rollback"].filter(Boolean).join(" \u2013 ");
    for (const made of app.nav.children) {
        if (made.dataset.view === (view.under || name)) made.setAttribute("aria-current", "page");
        else made.removeAttribute("aria-current");
    }
    const key = name + " " + view.key(params);
    if (app.controller && key === app.key && app.controller.update) {
        app.controller.update(params);
    } else if (!(await openView(view, params, key))) {
        if (app.controller && app.controller.isMissing) closePanel(true);
        return;
    }
    if (!params.has("step")) closePanel(true);
    else if (app.wantsPanel) showPanel(params.get("at") || params.get("step"));
}

// Opens a view. What comes of an address that was left meanwhile isn't shown.
async function openView(view, params, key) {
    const number = (app.opened += 1);
    app.main.setAttribute("aria-busy", "true");
    let controller;
    try {
        controller = await view.open(params);
    } catch (fault) {
        controller = { element: await missing(fault, params), isMissing: true, news: () => route() };
    }
    if (number !== app.opened) return false;
    app.main.removeAttribute("aria-busy");
    const isFirst = !app.controller;
    if (app.controller && app.controller.close) app.controller.close();
    app.controller = controller;
    app.key = controller.isMissing ? null : key;
    fill(app.main, controller.element);
    if (controller.opened) controller.opened();
    if (!isFirst && document.activeElement === document.body) focusView();
    return !controller.isMissing;
}

// The focus goes to the view if it was on something that is gone.
function focusView() {
    const { picture } = app.controller;
    (picture ? picture.scroller : app.main).focus({ preventScroll: true });
}

async function missing(fault, params) {
    const about = await Promise.all(slot("missing", params));
    return el("div", { class: "missing" }, el("h1", null, shown(fault.message)), about.flat(),
        el("p", null, link("#overview", "All executions")));
}

// What moved is handed to the view that is open, and to the panel.
function tellNews(news) {
    if (app.controller && app.controller.news) app.controller.news(news);
    if (!app.panel.hidden) refreshPanel(news);
}

// ---- the search

class Search {
    constructor() {
        this.found = [];
        this.at = -1;
        this.asked = "";
        this.count = el("span", { class: "count", role: "status" });
        this.list = el("ul", { class: "found", hidden: true });
        this.field = el("input", {
            type: "search", placeholder: SEARCH_HINT, "aria-label": SEARCH_HINT, autocomplete: "off", spellcheck: "false",
            input: later(200, () => this.ask()),
            keydown: (event) => this.pressed(event),
            focus: () => { this.list.hidden = !this.found.length; },
        });
        this.element = el("div", { class: "search", role: "search", focusout: (event) => this.left(event) }, this.field, this.count, this.list);
    }

    async ask() {
        const text = this.field.value.trim();
        if (text === this.asked) return;
        this.asked = text;
        this.at = -1;
        const answer = text ? await app.source.ask("find " + text + " most 100").catch(() => ({ steps: [] })) : { steps: [] };
        if (text !== this.asked) return;
        this.found = answer.steps;
        const count = answer.more ? "more than 100" : String(this.found.length);
        this.count.textContent = text ? (this.found.length ? count : "no step") : "";
        fill(this.list, this.found.slice(0, 12).map((row, place) => el("li", null,
            link(stepAddress(row.step), [el("b", null, shown(row.step)), " " + stateName(row) + " " + callText(row)], {
                click: () => { this.at = place; app.toMiddle = true; },
            }))));
        this.list.hidden = !this.found.length || document.activeElement !== this.field;
    }

    async pressed(event) {
        if (event.key === "Escape") {
            this.list.hidden = true;
        } else if (event.key === "ArrowDown" && !this.list.hidden) {
            event.preventDefault();
            this.list.querySelector("a").focus();
        } else if (event.key === "Enter") {
            event.preventDefault();
            await this.ask();
            this.next(event.shiftKey ? -1 : 1);
        }
    }

    next(direction) {
        const { found } = this;
        if (!found.length) return;
        const isFirst = this.at < 0;
        this.at = isFirst ? (direction > 0 ? 0 : found.length - 1) : (this.at + direction + found.length) % found.length;
        this.count.textContent = this.at + 1 + " of " + found.length;
        this.list.hidden = true;
        app.toMiddle = app.wantsPanel = true;
        go({ step: found[this.at].step }, !isFirst);
    }

    left(event) {
        if (!this.element.contains(event.relatedTarget)) this.list.hidden = true;
    }
}
"####;
