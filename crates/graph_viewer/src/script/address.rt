//! The address: what is behind `#` says what is chosen, and Back goes back.

pub(crate) fn text() -> &'static str {
    ADDRESS
}

const ADDRESS: &str = r####"
// An address as pairs: `#step=order-2%233&show=plan`. A part without a value, as `#items`, is a name with an empty one.
function readAddress(hash) {
    const found = new Map();
    for (const part of hash.replace(/^#/, "").split("&")) {
        if (!part) continue;
        const place = part.indexOf("=");
        const name = place < 0 ? part : part.slice(0, place);
        found.set(name, place < 0 ? "" : decoded(part.slice(place + 1)));
    }
    return found;
}

function decoded(text) {
    try {
        return decodeURIComponent(text);
    } catch (fault) {
        return text;
    }
}

function addressOf(pairs) {
    const parts = [];
    for (const [name, value] of Object.entries(pairs)) {
        if (value === null || value === undefined) continue;
        parts.push(value === "" ? name : name + "=" + encodeURIComponent(value));
    }
    return "#" + parts.join("&");
}

function stepAddress(step, more) {
    return addressOf({ step, ...more });
}

function stepLink(step, more) {
    return link(stepAddress(step, more), shown(step), { class: "name" });
}

function executionLink(name) {
    return link(addressOf({ execution: name }), shown(name), { class: "name" });
}

function itemLink(key, text) {
    return link(addressOf({ item: keyWord(key) }), el("bdi", null, text || short(keyText(key), 60)), { class: "name" });
}
"####;
