//! A small map of a picture, with a frame around what is in sight. A press or a drag moves there.

pub(crate) fn text() -> &'static str {
    MINIMAP
}

const MINIMAP: &str = r####"
const MAP_WIDTH = 160;
const MAP_HEIGHT = 110;

class Minimap {
    constructor(picture) {
        this.picture = picture;
        this.marks = svg("path", { class: "marks" });
        this.frame = svg("rect", { class: "sight" });
        this.drawing = svg("svg", { width: MAP_WIDTH, height: MAP_HEIGHT }, this.marks, this.frame);
        this.element = el("div", {
            class: "minimap", "aria-hidden": "true",
            pointerdown: (event) => this.pressed(event),
            pointermove: (event) => event.buttons && this.go(event),
        }, this.drawing);
    }

    show(scene) {
        this.scene = scene;
        this.scale = Math.min(MAP_WIDTH / Math.max(1, scene.width), MAP_HEIGHT / Math.max(1, scene.height));
        this.drawing.setAttribute("width", Math.max(24, Math.round(scene.width * this.scale)));
        this.drawing.setAttribute("height", Math.max(24, Math.round(scene.height * this.scale)));
        this.marks.setAttribute("d", cellsOf(scene.boxes, this.scale));
    }

    move(sight) {
        const { scene, scale } = this;
        this.element.hidden = scene.width <= sight.w && scene.height <= sight.h;
        const [x, y] = [Math.max(0, sight.x) * scale, Math.max(0, sight.y) * scale];
        this.frame.setAttribute("x", x);
        this.frame.setAttribute("y", y);
        this.frame.setAttribute("width", Math.max(3, Math.min(scene.width * scale - x, sight.w * scale)));
        this.frame.setAttribute("height", Math.max(3, Math.min(scene.height * scale - y, sight.h * scale)));
    }

    pressed(event) {
        this.element.setPointerCapture(event.pointerId);
        this.go(event);
    }

    go(event) {
        const place = this.drawing.getBoundingClientRect();
        const { scroller, zoom, room } = this.picture;
        scroller.scrollLeft = ((event.clientX - place.left) / this.scale) * zoom + room.x - scroller.clientWidth / 2;
        scroller.scrollTop = ((event.clientY - place.top) / this.scale) * zoom + room.y - scroller.clientHeight / 2;
    }
}

// Boxes as squares of a grid, each once: a map of 40,000 boxes has no more of them than one of a thousand.
function cellsOf(boxes, scale) {
    const cells = new Set();
    const parts = [];
    for (const box of boxes) {
        const x = Math.floor((box.x * scale) / 2) * 2;
        const y = Math.floor((box.y * scale) / 2) * 2;
        const cell = x * 1000 + y;
        if (cells.has(cell)) continue;
        cells.add(cell);
        const [w, h] = [Math.max(2, Math.round(box.w * scale)), Math.max(2, Math.round(box.h * scale))];
        parts.push("M" + x + " " + y + "h" + w + "v" + h + "h-" + w + "z");
    }
    return parts.join("");
}
"####;
