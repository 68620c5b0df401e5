//! Elements, and what is copied.

pub(crate) fn text() -> &'static str {
    DOM
}

const DOM: &str = r####"(function () {
"use strict";

// ---- elements

const SVG = "http://www.w3.org/2000/svg";

function put(element, attributes, children) {
    for (const [name, value] of Object.entries(attributes || {})) {
        if (value === null || value === undefined || value === false) continue;
        if (typeof value === "function") element.addEventListener(name, value);
        else element.setAttribute(name, value === true ? "" : String(value));
    }
    for (const child of children.flat(Infinity)) {
        if (child !== null && child !== undefined && child !== false) element.append(child);
    }
    return element;
}

// An element with attributes and children. A function is what happens at an event, and a text is never markup.
function el(name, attributes, ...children) {
    return put(document.createElement(name), attributes, children);
}

function svg(name, attributes, ...children) {
    return put(document.createElementNS(SVG, name), attributes, children);
}

// Puts children in the place of those that are there.
function fill(element, ...children) {
    element.replaceChildren();
    return put(element, null, children);
}

function link(hash, text, attributes) {
    return el("a", { href: hash, ...attributes }, text);
}

function button(text, does, attributes) {
    return el("button", { type: "button", click: does, ...attributes }, text);
}

// A button that can't be pressed again before what it does has ended.
function busyButton(text, does, attributes) {
    const made = button(text, async () => {
        if (made.getAttribute("aria-disabled") === "true") return;
        made.setAttribute("aria-disabled", "true");
        try {
            await does(made);
        } catch (fault) {
            notice("Nothing was done: " + fault.message + ".", "fault");
        } finally {
            made.removeAttribute("aria-disabled");
        }
    }, attributes);
    return made;
}

// ---- what is copied

function copyButton(text, what) {
    const made = button("Copy", async () => {
        const done = await copied(typeof text === "function" ? text() : text);
        made.textContent = done ? "Copied" : "Not copied";
        setTimeout(() => { made.textContent = "Copy"; }, 1500);
    }, { class: "small copy", "aria-label": "Copy " + what, title: "Copy " + what });
    return made;
}

async function copied(text) {
    try {
        await navigator.clipboard.writeText(text);
        return true;
    } catch (fault) {
        return copiedBySelection(text);
    }
}

function copiedBySelection(text) {
    const field = el("textarea", { class: "unseen", "aria-hidden": "true" });
    field.value = text;
    document.body.append(field);
    field.select();
    const done = document.execCommand("copy");
    field.remove();
    return done;
}

// ---- later

function later(wait, does) {
    let timer = 0;
    return (...given) => {
        clearTimeout(timer);
        timer = setTimeout(() => does(...given), wait);
    };
}

// Does something before the next frame is drawn, once for all calls until then.
function nextFrame(does) {
    let asked = false;
    return () => {
        if (asked) return;
        asked = true;
        requestAnimationFrame(() => {
            asked = false;
            does();
        });
    };
}

// Does something that takes its time: at once, and again if it is asked for meanwhile, but never without a pause as long as it took.
function steadily(does) {
    let [running, again] = [false, false];
    return async function run() {
        again = true;
        if (running) return;
        running = true;
        while (again) {
            again = false;
            const began = performance.now();
            await does();
            const took = performance.now() - began;
            if (took > 100) await new Promise((done) => setTimeout(done, took));
        }
        running = false;
    };
}

function counted(count, one, many) {
    return count.toLocaleString("en") + " " + (count === 1 ? one : many || one + "s");
}
"####;
