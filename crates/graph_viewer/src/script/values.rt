//! Values as texts: JSON with whole numbers of any size, keys, items, and characters that would hide or turn what is shown.

pub(crate) fn text() -> &'static str {
    VALUES
}

const VALUES: &str = r####"
// ---- JSON

// Reads JSON. A whole number that a browser's number can't hold becomes a BigInt, where the browser lets its digits be seen.
function readJson(text) {
    if (!/[0-9]{16}/.test(text)) return JSON.parse(text);
    return JSON.parse(text, (name, value, context) =>
        typeof value === "number" && Number.isInteger(value) && !Number.isSafeInteger(value) && context && context.source
            ? BigInt(context.source)
            : value);
}

function jsonText(value, indent) {
    return written(value, indent || 0, "");
}

function written(value, indent, before) {
    if (typeof value === "bigint") return value.toString();
    if (value === null || typeof value !== "object") return JSON.stringify(value);
    const inner = before + " ".repeat(indent);
    const parts = Array.isArray(value)
        ? value.map((part) => written(part, indent, inner))
        : Object.keys(value).map((name) => JSON.stringify(name) + (indent ? ": " : ":") + written(value[name], indent, inner));
    const [open, close] = Array.isArray(value) ? "[]" : "{}";
    if (!parts.length) return open + close;
    if (!indent) return open + parts.join(",") + close;
    const flat = open + parts.join(", ") + close;
    if (flat.length + before.length <= 60 && !flat.includes("\n")) return flat;
    return open + "\n" + inner + parts.join(",\n" + inner) + "\n" + before + close;
}

// Whether an answer says what an earlier one said, but for the number of lines that they speak of. If so, the page stays as it is.
function saysTheSame(answer, earlier) {
    return Boolean(earlier) && isEqual({ ...answer, entries: null }, { ...earlier, entries: null });
}

function isEqual(one, other) {
    if (one === other) return true;
    if (one === null || other === null || typeof one !== "object" || typeof other !== "object") return false;
    const names = Object.keys(one);
    return Array.isArray(one) === Array.isArray(other) && names.length === Object.keys(other).length
        && names.every((name) => Object.hasOwn(other, name) && isEqual(one[name], other[name]));
}

// ---- texts

const HIDDEN = /[\u0000-\u0008\u000b-\u001f\u007f-\u009f\u061c\u200b-\u200f\u2028-\u202e\u2060-\u2069\ufeff]/g;

// A text with the characters made visible that hide, or that turn the direction of what follows.
function shown(text) {
    return String(text).replace(HIDDEN, (sign) => "\\u" + sign.charCodeAt(0).toString(16).padStart(4, "0"));
}

function short(text, most) {
    const all = shown(text).replace(/\s+/g, " ");
    return all.length <= most ? all : all.slice(0, most - 1) + "\u2026";
}

const MOST_SHOWN = 4000;

// A value as it is read, with a button for what is left of a long one.
function valueBlock(value, what) {
    const text = jsonText(value, 2);
    const block = el("pre", { class: "value", tabindex: text.length > 400 ? "0" : null });
    const all = shown(text.slice(0, MOST_SHOWN));
    put(block, null, [el("bdi", null, all)]);
    const tools = el("div", { class: "tools" }, copyButton(() => jsonText(value, 2), what));
    if (text.length > MOST_SHOWN) {
        const more = button("Show all " + counted(text.length, "character"), () => {
            fill(block, el("bdi", null, shown(text)));
            more.remove();
        }, { class: "small" });
        tools.append(more);
    }
    return el("div", { class: "valued" }, block, tools);
}

// ---- keys and items

function needsType(name, value) {
    const [type] = Object.keys(value);
    return type !== "S" || value.S === "" || /^[-0-9{ ]/.test(value.S);
}

// A key as an operator reads it: `ann`, and with its type only if that matters.
function keyText(key) {
    if (!key) return "";
    return Object.keys(key)
        .map((name) => (needsType(name, key[name]) ? jsonText(key[name]) : key[name].S))
        .join(", ");
}

// Keys in the order of the table: texts by their characters, numbers by their size.
function compareKeys(one, other) {
    for (const name of Object.keys(one)) {
        const [[type, a]] = Object.entries(one[name]);
        const b = (other[name] || {})[type];
        if (a === b || b === undefined) continue;
        return type === "N" ? Number(a) - Number(b) : compareTexts(a, b);
    }
    return 0;
}

function compareTexts(one, other) {
    const [a, b] = [[...one], [...other]];
    const place = a.findIndex((sign, number) => sign !== b[number]);
    if (place < 0) return a.length - b.length;
    return place >= b.length ? 1 : a[place].codePointAt(0) - b[place].codePointAt(0);
}

// A key as a question and an address have it.
function keyWord(key) {
    const names = Object.keys(key);
    const only = key[names[0]];
    const isPlain = names.length === 1 && !needsType(names[0], only) && !/[\r\n]|^(after|most) /.test(only.S);
    return isPlain ? only.S : jsonText(key);
}

function sameValue(one, other) {
    return jsonText(sorted(one)) === jsonText(sorted(other));
}

function sorted(value) {
    if (value === null || typeof value !== "object" || Array.isArray(value)) return value;
    const made = {};
    for (const name of Object.keys(value).sort()) made[name] = sorted(value[name]);
    return made;
}

// An item in a line, or that there is none.
function itemText(item, most) {
    return item === null || item === undefined ? "no item" : short(jsonText(item), most || 120);
}

// ---- names

function threadOf(step) {
    return step.slice(0, step.lastIndexOf("#"));
}

function executionOf(name) {
    return name.split("#")[0].split("/")[0];
}

// Names in the order in which `drive` takes threads: branch by branch, as numbers.
function compareThreads(one, other) {
    const [a, b] = [one.split("/"), other.split("/")];
    for (let place = 0; place < Math.min(a.length, b.length); place += 1) {
        if (a[place] === b[place]) continue;
        if (place === 0) return a[0] < b[0] ? -1 : 1;
        const [x, y] = [a[place].split(".").map(Number), b[place].split(".").map(Number)];
        return x[0] - y[0] || x[1] - y[1];
    }
    return a.length - b.length;
}
"####;
