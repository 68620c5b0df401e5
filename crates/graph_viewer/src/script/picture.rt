//! A picture of boxes and lines, of which those are drawn that are in sight. It zooms, fits, and moves along its lines by keys.

pub(crate) fn text() -> &'static str {
    PICTURE
}

const PICTURE: &str = r####"
const BUCKET = 512;
const AROUND = 250;
const MOST_DRAWN = 1200;
const MOST_LINES = 2000;
const LONG = 16 * BUCKET;
const FAR_ZOOM = 0.12;
const MOST_ZOOM = 2;
const READABLE = 0.75;
const HEAD_HEIGHT = 26;

// A scene has `width`, `height`, `boxes` (each with `id`, `x`, `y`, `w`, `h`, `kind`, `draw()` and `label()`), `lines` (each with `from` and
// `to`, ids of boxes, `reason` and `title()`), `heads` (each with `x`, `w` and `text`) and `bands` (each with `x`, `y`, `w` and `h`).
class Picture {
    constructor(label, chosen) {
        this.chosen = chosen;
        this.zoom = 1;
        this.selected = null;
        this.boxes = new Map();
        this.paths = new Map();
        this.lineLayer = svg("svg", { class: "lines", "aria-hidden": "true" });
        this.bandLayer = el("div", { class: "bands" });
        this.boxLayer = el("div", { class: "boxes" });
        this.layer = el("div", { class: "layer" }, this.bandLayer, this.lineLayer, this.boxLayer);
        this.headLayer = el("div", { class: "heads", "aria-hidden": "true" });
        this.sizer = el("div", { class: "sizer" }, this.headLayer, this.layer);
        this.scroller = el("div", {
            class: "scroller picture", tabindex: "0", role: "listbox", "aria-label": label,
            keydown: (event) => this.pressed(event),
            click: (event) => this.clicked(event),
            wheel: (event) => this.wheeled(event),
        }, this.sizer);
        this.mini = new Minimap(this);
        this.percent = el("span", { class: "percent" }, "100 %");
        this.element = el("div", { class: "pictured" }, this.scroller, this.mini.element, this.tools(), drawnLegend());
        this.redraw = nextFrame(() => this.draw());
        this.scroller.addEventListener("scroll", this.redraw, { passive: true });
        new ResizeObserver(() => this.resized()).observe(this.scroller);
        this.room = { x: 0, y: 0 };
        this.isFitted = false;
        this.show({ width: 0, height: 0, boxes: [], lines: [], heads: [], bands: [] });
    }

    tools() {
        return el("div", { class: "zoom", role: "group", "aria-label": "Zoom" },
            button("\u2212", () => this.zoomByHand(1 / 1.25), { "aria-label": "Zoom out", title: "Zoom out (-)" }),
            this.percent,
            button("+", () => this.zoomByHand(1.25), { "aria-label": "Zoom in", title: "Zoom in (+)" }),
            button("Fit", () => this.fit(), { title: "Show all of it (0)" }));
    }

    // ---- the scene

    show(scene) {
        this.scene = scene;
        this.byId = new Map(scene.boxes.map((box) => [box.id, box]));
        this.buckets = bucketed(scene.boxes, (box) => [box.y, box.y + box.h]);
        const known = scene.lines.filter((line) => this.byId.has(line.from) && this.byId.has(line.to));
        for (const line of known) line.around = aroundOf(this.byId.get(line.from), this.byId.get(line.to));
        this.longLines = known.filter((line) => line.around.h > LONG);
        this.lineBuckets = bucketed(known.filter((line) => line.around.h <= LONG), (line) => [line.around.y, line.around.y + line.around.h]);
        this.neighbours = neighboursOf(known);
        for (const drawn of this.boxes.values()) drawn.remove();
        for (const drawn of this.paths.values()) drawn.remove();
        this.boxes.clear();
        this.paths.clear();
        fill(this.bandLayer, scene.bands.map(drawnBand));
        fill(this.headLayer, scene.heads.map((head) => el("span", { class: "head", title: head.text }, head.draw ? head.draw() : head.text)));
        this.silhouette = null;
        this.mini.show(scene);
        this.resize();
        this.draw();
    }

    resize() {
        const { scene, zoom, scroller } = this;
        const top = scene.heads.length ? HEAD_HEIGHT : 0;
        // a picture that doesn't fit has room around it, so that each box can be in the middle
        this.room = {
            x: scene.width * zoom > scroller.clientWidth ? Math.round(scroller.clientWidth * 0.42) : 0,
            y: scene.height * zoom + top > scroller.clientHeight ? Math.round(scroller.clientHeight * 0.42) : 0,
        };
        this.sizer.style.width = Math.ceil(scene.width * zoom + 2 * this.room.x) + "px";
        this.sizer.style.height = Math.ceil(scene.height * zoom + top + 2 * this.room.y) + "px";
        this.layer.style.transform = "scale(" + zoom + ")";
        this.layer.style.left = this.room.x + "px";
        this.layer.style.top = top + this.room.y + "px";
        this.headLayer.hidden = !scene.heads.length;
        this.lineLayer.setAttribute("width", Math.max(1, scene.width));
        this.lineLayer.setAttribute("height", Math.max(1, scene.height));
        this.percent.textContent = zoom < 0.01 ? "< 1 %" : Math.round(zoom * 100) + " %";
        scene.heads.forEach((head, place) => {
            const drawn = this.headLayer.children[place];
            drawn.style.left = head.x * zoom + this.room.x + "px";
            drawn.style.width = head.w * zoom + "px";
        });
    }

    // The window is another one: what was in its middle stays there, and a picture that was fitted is fitted again.
    resized() {
        const { scroller, room } = this;
        if (this.isFitted) {
            this.fitIfReadable();
            return;
        }
        const [x, y] = [scroller.scrollLeft - room.x, scroller.scrollTop - room.y];
        this.resize();
        if (room.x !== this.room.x) scroller.scrollLeft = x + this.room.x;
        if (room.y !== this.room.y) scroller.scrollTop = y + this.room.y;
        this.redraw();
    }

    // What is in sight, in the scene's own measure.
    sight() {
        const { scroller, zoom, room } = this;
        return {
            x: (scroller.scrollLeft - room.x) / zoom,
            y: (scroller.scrollTop - room.y) / zoom,
            w: scroller.clientWidth / zoom,
            h: scroller.clientHeight / zoom,
        };
    }

    draw() {
        const sight = this.sight();
        const around = { x: sight.x - AROUND, y: sight.y - AROUND, w: sight.w + 2 * AROUND, h: sight.h + 2 * AROUND };
        let wanted = inBuckets(this.buckets, around).filter((box) => meets(box, around));
        const isFar = wanted.length > MOST_DRAWN || this.zoom < FAR_ZOOM;
        this.drawSilhouette(isFar);
        if (isFar) wanted = wanted.filter((box) => box.id === this.selected);
        this.keep(this.boxes, wanted.map((box) => [box.id, box]), (box) => this.drawBox(box), this.boxLayer);
        const lines = isFar ? [] : this.linesIn(around);
        this.keep(this.paths, lines.map((line) => [line.from + ">" + line.to, line]), (line) => this.drawLine(line), this.lineLayer);
        this.mini.move(sight);
    }

    // The lines that cross what is in sight: those of the chosen box first, and not more than can be told apart.
    linesIn(around) {
        const found = [...inBuckets(this.lineBuckets, around), ...this.longLines].filter((line) => meets(line.around, around));
        if (found.length <= MOST_LINES) return found;
        const isOwn = (line) => line.from === this.selected || line.to === this.selected;
        return [...found.filter(isOwn), ...found.filter((line) => !isOwn(line))].slice(0, MOST_LINES);
    }

    keep(drawn, wanted, draw, layer) {
        const now = new Map(wanted);
        for (const [id, element] of drawn) {
            if (!now.has(id)) {
                element.remove();
                drawn.delete(id);
            }
        }
        for (const [id, what] of now) {
            if (!drawn.has(id)) {
                const element = draw(what);
                drawn.set(id, element);
                layer.append(element);
            }
        }
    }

    drawBox(box) {
        const element = box.draw();
        put(element, { id: "box-" + box.id, role: "option", "aria-label": box.label(), "aria-selected": String(box.id === this.selected) }, []);
        element.dataset.id = box.id;
        element.style.left = box.x + "px";
        element.style.top = box.y + "px";
        element.style.width = box.w + "px";
        element.style.height = box.h + "px";
        return element;
    }

    drawLine(line) {
        const [from, to] = [this.byId.get(line.from), this.byId.get(line.to)];
        const isNear = line.from === this.selected || line.to === this.selected;
        return svg("path", { class: "line " + line.reason + (isNear ? " near" : ""), d: curve(from, to) }, svg("title", null, line.title()));
    }

    // All boxes as one path, if they are too many to be drawn each.
    drawSilhouette(isFar) {
        if (!isFar) {
            if (this.silhouette) this.silhouette.setAttribute("display", "none");
            return;
        }
        if (!this.silhouette) {
            const parts = this.scene.boxes.map((box) => "M" + box.x + " " + box.y + "h" + box.w + "v" + box.h + "h-" + box.w + "z");
            this.silhouette = svg("path", { class: "silhouette", d: parts.join("") });
            this.lineLayer.prepend(this.silhouette);
        }
        this.silhouette.removeAttribute("display");
    }

    // ---- what is chosen

    select(id, toMiddle) {
        this.mark(this.selected, false);
        this.selected = this.byId.has(id) ? id : null;
        if (this.selected === null) return;
        this.reveal(this.byId.get(id), toMiddle);
        this.draw();
        this.mark(id, true);
    }

    mark(id, is) {
        const element = this.boxes.get(id);
        if (element) element.setAttribute("aria-selected", String(is));
        if (is && element) this.scroller.setAttribute("aria-activedescendant", element.id);
        for (const [name, path] of this.paths) {
            if (name.startsWith(id + ">") || name.endsWith(">" + id)) path.classList.toggle("near", is);
        }
    }

    reveal(box, toMiddle) {
        const { scroller, zoom, room } = this;
        const top = this.scene.heads.length ? HEAD_HEIGHT : 0;
        const sight = this.sight();
        const inside = { x: sight.x, y: sight.y, w: sight.w, h: sight.h - top / zoom };
        if (!toMiddle && contains(inside, box)) return;
        scroller.scrollLeft = (box.x + box.w / 2) * zoom + room.x - scroller.clientWidth / 2;
        scroller.scrollTop = (box.y + box.h / 2) * zoom + top + room.y - scroller.clientHeight / 2;
    }

    clicked(event) {
        const element = event.target.closest(".box");
        if (element && !event.target.closest("a, button")) this.chosen(element.dataset.id, true);
    }

    // ---- zoom

    zoomByHand(factor, at) {
        this.isFitted = false;
        this.zoomBy(factor, at);
    }

    zoomBy(factor, at) {
        const { scroller } = this;
        const place = at || { x: scroller.clientWidth / 2, y: scroller.clientHeight / 2 };
        const zoom = Math.min(MOST_ZOOM, Math.max(Math.min(READABLE, this.fitting()), this.zoom * factor));
        const x = (scroller.scrollLeft - this.room.x + place.x) / this.zoom;
        const y = (scroller.scrollTop - this.room.y + place.y) / this.zoom;
        this.zoom = zoom;
        this.resize();
        scroller.scrollLeft = x * zoom + this.room.x - place.x;
        scroller.scrollTop = y * zoom + this.room.y - place.y;
        this.draw();
    }

    fitting() {
        const { scene, scroller } = this;
        const wide = scroller.clientWidth / Math.max(1, scene.width);
        const high = (scroller.clientHeight - HEAD_HEIGHT) / Math.max(1, scene.height);
        return Math.min(1, wide, high);
    }

    fit() {
        this.zoomBy(this.fitting() / this.zoom);
        if (!this.room.x && !this.room.y) this.scroller.scrollTo(0, 0);
    }

    // Shows all of it, if that can still be read.
    fitIfReadable() {
        const zoom = this.fitting();
        this.isFitted = zoom >= READABLE;
        if (this.isFitted) this.fit();
        else this.redraw();
    }

    wheeled(event) {
        if (!event.ctrlKey && !event.metaKey) return;
        event.preventDefault();
        const place = this.scroller.getBoundingClientRect();
        this.zoomByHand(event.deltaY < 0 ? 1.15 : 1 / 1.15, { x: event.clientX - place.left, y: event.clientY - place.top });
    }

    // ---- keys

    pressed(event) {
        if (event.ctrlKey || event.metaKey || event.altKey) return;
        const does = {
            ArrowDown: () => this.along("later"),
            ArrowUp: () => this.along("earlier"),
            ArrowLeft: () => this.beside(-1),
            ArrowRight: () => this.beside(1),
            Enter: () => this.selected && this.chosen(this.selected, true),
            "+": () => this.zoomByHand(1.25),
            "-": () => this.zoomByHand(1 / 1.25),
            0: () => this.fit(),
        }[event.key];
        if (!does) return;
        event.preventDefault();
        does();
    }

    along(direction) {
        if (this.selected === null) {
            this.choose(this.scene.boxes[0]);
            return;
        }
        const next = (this.neighbours.get(this.selected) || { earlier: [], later: [] })[direction];
        if (next.length) this.choose(this.byId.get(next[0]));
    }

    // The nearest box to the left or to the right, of those that are about as high.
    beside(direction) {
        const own = this.byId.get(this.selected);
        if (!own) return;
        const far = (box) => Math.abs(box.x - own.x) + 3 * Math.abs(box.y - own.y);
        const found = this.scene.boxes.filter((box) => (box.x - own.x) * direction > 0);
        this.choose(found.reduce((best, box) => (!best || far(box) < far(best) ? box : best), null));
    }

    choose(box) {
        if (box) this.chosen(box.id, false);
    }
}

// ---- shapes

function bucketed(things, span) {
    const found = new Map();
    for (const thing of things) {
        const [top, bottom] = span(thing);
        for (let place = Math.floor(top / BUCKET); place <= Math.floor(bottom / BUCKET); place += 1) {
            if (!found.has(place)) found.set(place, []);
            found.get(place).push(thing);
        }
    }
    return found;
}

function inBuckets(buckets, sight) {
    const found = new Set();
    const last = Math.floor((sight.y + sight.h) / BUCKET);
    for (let place = Math.floor(sight.y / BUCKET); place <= last; place += 1) {
        for (const thing of buckets.get(place) || []) found.add(thing);
    }
    return [...found];
}

function aroundOf(from, to) {
    const [x, y] = [Math.min(from.x, to.x), Math.min(from.y, to.y)];
    return { x, y, w: Math.max(from.x + from.w, to.x + to.w) - x, h: Math.max(from.y + from.h, to.y + to.h) - y };
}

function meets(box, sight) {
    return box.x < sight.x + sight.w && box.x + box.w > sight.x && box.y < sight.y + sight.h && box.y + box.h > sight.y;
}

function contains(sight, box) {
    return box.x >= sight.x && box.y >= sight.y && box.x + box.w <= sight.x + sight.w && box.y + box.h <= sight.y + sight.h;
}

function neighboursOf(lines) {
    const found = new Map();
    const of = (id) => {
        if (!found.has(id)) found.set(id, { earlier: [], later: [] });
        return found.get(id);
    };
    for (const line of lines) {
        of(line.from).later.push(line.to);
        of(line.to).earlier.push(line.from);
    }
    return found;
}

function curve(from, to) {
    const [x, y, u, v] = [from.x + from.w / 2, from.y + from.h, to.x + to.w / 2, to.y];
    if (x === u) return "M" + x + " " + y + "V" + v;
    const bend = Math.max(14, Math.min(60, (v - y) / 2));
    return "M" + x + " " + y + "C" + x + " " + (y + bend) + " " + u + " " + (v - bend) + " " + u + " " + v;
}

// What the colours mean.
function drawnLegend() {
    const kinds = ["start", "plain", "call", "fork", "join", "terminate"].map((kind) =>
        el("li", null, el("i", { class: "sample kind-" + kind }), kind === "plain" ? "state" : kind));
    const reasons = [["thread", "thread"], ["item", "item"], ["fork", "start, fork, join"], ["bound", "bound of a Map"]].map(([reason, text]) =>
        el("li", null, svg("svg", { width: 26, height: 8 }, svg("path", { class: "line " + reason, d: "M0 4H26" })), text));
    return el("details", { class: "legend" }, el("summary", null, "Colours"), el("ul", null, kinds, reasons));
}

function drawnBand(band) {
    const element = el("div", { class: "band" });
    element.style.left = band.x + "px";
    element.style.top = band.y + "px";
    element.style.width = band.w + "px";
    element.style.height = band.h + "px";
    return element;
}
"####;
