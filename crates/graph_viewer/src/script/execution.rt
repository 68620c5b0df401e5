//! An execution: what it is, and its steps in lanes.

pub(crate) fn text() -> &'static str {
    EXECUTION
}

const EXECUTION: &str = r####"
const executionName = (params) => (params.has("step") ? executionOf(params.get("step")) : params.get("execution"));

addView("execution", {
    under: "overview",
    title: (params) => params.get("step") || params.get("execution"),
    key: executionName,
    open: async (params) => {
        const view = new ExecutionView(executionName(params));
        try {
            await view.load();
        } catch (fault) {
            throw params.has("step") && fault instanceof NoAnswer ? new NoAnswer(params.get("step") + " is no remaining step") : fault;
        }
        view.choose(params);
        return view;
    },
});

class ExecutionView {
    constructor(name) {
        this.name = name;
        this.head = el("div", { class: "about-execution" });
        this.picture = new Picture("Steps of " + name, (step, isPressed) => this.chosen(step, isPressed));
        this.element = el("section", { class: "view execution" }, this.head, this.picture.element);
        this.step = null;
        this.again = steadily(() => this.look());
    }

    async load(isAnew) {
        const answer = await app.source.ask("show " + this.name);
        const { threads, ...about } = answer;
        if (!isAnew && saysTheSame(answer, this.answer)) return;
        this.answer = answer;
        this.steps = new Set(threads.flatMap((thread) => thread.steps.map((row) => row.step)));
        this.drawHead(about, threads);
        const chosen = this.picture.selected;
        this.picture.show(lanesScene(threads));
        if (chosen) this.picture.select(chosen, false);
    }

    drawHead(about, threads) {
        const facts = [
            ["Machine", slots.machineLink ? slots.machineLink(about.machine) : shown(about.machine)],
            about.state !== null && ["State", shown(about.state)],
            about.error !== null && ["Error", shown(about.error)],
            about.cause !== null && about.cause !== "" && ["Cause", short(about.cause, 300)],
            ["Threads", String(threads.length)],
            ["Steps", this.steps.size.toLocaleString("en")],
        ].filter(Boolean);
        const values = [["Input", about.input], about.status === "done" && ["Output", about.output]].filter(Boolean);
        const open = [...this.head.querySelectorAll("details[open]")].map((made) => made.dataset.name);
        fill(this.head,
            el("div", { class: "bar" }, el("h1", null, el("bdi", null, this.name)), statusMark(about.status),
                copyButton(this.name, "the execution's name"), slot("execution", about, this)),
            el("dl", { class: "facts" }, facts.map(([name, value]) => el("div", null, el("dt", null, name), el("dd", null, value)))),
            slot("why", about),
            el("div", { class: "values" }, values.map(([name, value]) => el("details", { "data-name": name, open: open.includes(name) },
                el("summary", null, el("b", null, name + " "), el("bdi", { class: "line-of-value" }, short(jsonText(value), 160))),
                valueBlock(value, name)))));
    }

    choose(params) {
        const step = params.get("step");
        if (step && !this.steps.has(step)) throw new NoAnswer(step + " is no remaining step");
        this.step = step || null;
    }

    opened() {
        this.picture.resize();
        this.picture.fitIfReadable();
        this.picture.draw();
        const last = this.step || [...this.steps].pop();
        if (this.step) this.picture.select(this.step, true);
        else if (last) this.picture.select(this.failed() || this.picture.scene.boxes[0].id, false);
        app.toMiddle = false;
    }

    // The first step that failed, which is what an operator looks for.
    failed() {
        const found = this.picture.scene.boxes.find((box) => box.word === "failed");
        return found ? found.id : null;
    }

    update(params) {
        const step = params.get("step");
        if (!step) return;
        if (!this.steps.has(step)) {
            app.key = null;
            route();
            return;
        }
        this.step = step;
        this.picture.select(step, app.toMiddle);
        app.toMiddle = false;
    }

    chosen(step, isPressed) {
        if (isPressed) app.wantsPanel = true;
        go({ step }, !isPressed);
    }

    news(news) {
        this.isAnew = this.isAnew || Boolean(news.isPausing);
        if (news.all || news.isPausing || news.executions.has(this.name)) this.again();
    }

    async look() {
        try {
            const isAnew = this.isAnew;
            this.isAnew = false;
            await this.load(isAnew);
            if (this.step && !this.steps.has(this.step)) throw new NoAnswer("gone");
            if (this.step && this.picture.selected !== this.step) this.picture.select(this.step, false);
        } catch (fault) {
            app.key = null;
            if (this.element.isConnected) route();
        }
    }
}
"####;
