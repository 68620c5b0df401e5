//! Answers out of the page's own data: the book as it was when the page was written.

pub(crate) fn text() -> &'static str {
    PAGE_SOURCE
}

const PAGE_SOURCE: &str = r####"
class NoAnswer extends Error {}

// The fork that made a thread, and which of its branches the thread is; nothing of an execution's own.
function branchOf(thread) {
    const dot = thread.lastIndexOf(".");
    return thread.includes("/") ? { fork: thread.slice(0, dot), index: Number(thread.slice(dot + 1)) } : null;
}

// By fork, each branch with the place of its last step, the first branch first.
function endsByFork(rows) {
    const forks = new Map();
    rows.forEach((row, place) => {
        const branch = branchOf(row.thread);
        if (!branch) return;
        if (!forks.has(branch.fork)) forks.set(branch.fork, new Map());
        forks.get(branch.fork).set(branch.index, place);
    });
    for (const [fork, ends] of forks) forks.set(fork, [...ends].sort(([one], [other]) => one - other));
    return forks;
}

// By fork, and by the last branch for which they waited, the places of first moves that waited.
function waitedAt(rows) {
    const forks = new Map();
    rows.forEach((row, place) => {
        if (!row.waited) return;
        const { fork, index } = branchOf(row.waited);
        if (!forks.has(fork)) forks.set(fork, new Map());
        const waited = forks.get(fork);
        waited.set(index, [...(waited.get(index) || []), place]);
    });
    return forks;
}

// The book of a page: its answers have the form of those that a running book gives. Nothing can be given to it.
class PageBook {
    constructor(data) {
        this.name = data.name;
        this.first = data.show;
        this.canAsk = false;
        this.list = data.list;
        this.machines = data.machines;
        this.rows = data.steps.steps;
        this.places = new Map(this.rows.map((row, place) => [row.step, place]));
        this.before = null;
        this.later = null;
        this.byKey = null;
        this.listeners = [];
        this.rowOf = new Map(data.list.executions.map((row) => [row.execution, row]));
        this.counts = data.list.counts;
        this.machineCounts = data.list.machines;
        this.held = data.list.held;
    }

    async load() {}

    when() {
        return null;
    }

    async ask(question) {
        const space = question.indexOf(" ");
        const word = space < 0 ? question : question.slice(0, space);
        const rest = space < 0 ? "" : question.slice(space + 1);
        switch (word) {
            case "list": return this.list;
            case "machines": return this.machines;
            case "show": return rest.includes("#") ? this.shownStep(rest) : this.shownExecution(rest);
            case "plan": return this.plan(rest);
            case "causes": return this.causes(rest);
            case "find": return this.found(rest);
            case "item": return rest === "" || /^(after .*)?most \d+$/.test(rest) ? this.items() : this.item(rest);
            default: throw new NoAnswer("no question");
        }
    }

    place(step) {
        const found = this.places.get(step);
        if (found === undefined) throw new NoAnswer(step + " is no remaining step");
        return found;
    }

    // The steps on which each one depends, and those that depend on it. Numbers from the count of steps on are barriers: each stands for the
    // branches of a fork up to one, for which first moves waited.
    link() {
        if (this.later) return;
        this.before = this.rows.map((row) => row.on.map(({ step }) => this.places.get(step)).filter((found) => found !== undefined));
        const ends = endsByFork(this.rows);
        for (const [fork, waited] of waitedAt(this.rows)) this.linkBarriers(waited, ends.get(fork) || []);
        this.later = this.before.map(() => []);
        this.before.forEach((places, node) => {
            for (const earlier of places) this.later[earlier].push(node);
        });
    }

    // The barriers of a fork, each behind the one before: first moves by the last branch for which they waited, and branches with their last steps.
    linkBarriers(waited, ends) {
        let barrier = null;
        let next = 0;
        for (const [branch, firsts] of [...waited].sort(([one], [other]) => one - other)) {
            const inputs = barrier === null ? [] : [barrier];
            for (; next < ends.length && ends[next][0] <= branch; next += 1) inputs.push(ends[next][1]);
            barrier = this.before.length;
            this.before.push(inputs);
            for (const first of firsts) this.before[first].push(barrier);
        }
    }

    // The steps that are reached, the latest first, each with the one from which it was reached.
    reached(first, next) {
        const found = new Map([[first, null]]);
        const left = [first];
        while (left.length) {
            const node = left.pop();
            const from = this.isStep(node) ? node : found.get(node);
            for (const place of next[node]) {
                if (!found.has(place)) {
                    found.set(place, from);
                    left.push(place);
                }
            }
        }
        return [...found].filter(([node]) => this.isStep(node)).sort(([one], [other]) => other - one);
    }

    isStep(node) {
        return node < this.rows.length;
    }

    // Of each step and barrier, the latest of some steps on which it depends directly; -1 if it depends on none.
    latestOf(members) {
        const of = (node) => this.isStep(node) ? (members.has(node) ? node : -1) : latest[node];
        const latest = [];
        for (let node = this.rows.length; node < this.before.length; node += 1) latest[node] = Math.max(-1, ...this.before[node].map(of));
        for (const node of members) latest[node] = Math.max(-1, ...this.before[node].map(of));
        return latest;
    }

    plan(step) {
        this.link();
        const places = this.reached(this.place(step), this.later).map(([place]) => place);
        const latest = this.latestOf(new Set(places));
        const steps = places.map((place) => {
            const row = this.rows[place];
            if (latest[place] < 0) return { ...row, after: null, reason: null };
            const after = this.rows[latest[place]].step;
            const on = row.on.find((found) => found.step === after);
            return { ...row, after, reason: on ? on.reason : "bound" };
        });
        const executions = [...new Set(steps.map((row) => executionOf(row.step)))].sort();
        return { count: steps.length, executions, items: this.changed(places), step, steps };
    }

    // The items that a rollback of these steps changes, the latest first.
    changed(places) {
        const then = new Map();
        for (const place of places) {
            const row = this.rows[place];
            if (row.access === "write") then.set(jsonText(row.key), { key: row.key, then: row.items.before });
        }
        const found = [];
        for (const [word, { key, then: item }] of then) {
            const now = this.now(word);
            if (!sameValue(now, item)) found.push({ key, now, then: item });
        }
        return found.sort((one, other) => compareKeys(one.key, other.key));
    }

    causes(step) {
        this.link();
        const [[first], ...causes] = this.reached(this.place(step), this.before);
        return { causes: causes.map(([place, from]) => ({ ...this.rows[place], needed_for: this.rows[from].step })), step: this.rows[first].step };
    }

    shownStep(step) {
        const place = this.place(step);
        this.link();
        const behind = (node) => (this.isStep(node) ? [node] : this.later[node].filter((later) => this.isStep(later)));
        const later = new Set(this.later[place].flatMap(behind));
        const dependents = [...later].sort((one, other) => one - other).map((found) => {
            const on = this.rows[found].on.find((one) => one.step === step);
            return { step: this.rows[found].step, reason: on ? on.reason : "bound" };
        });
        return { dependents, step: this.rows[place] };
    }

    shownExecution(name) {
        const about = this.list.executions.find((row) => row.execution === name);
        if (!about) throw new NoAnswer(name + " is no execution");
        const threads = new Map();
        for (const row of this.rows) {
            if (executionOf(row.step) !== name) continue;
            if (!threads.has(row.thread)) threads.set(row.thread, []);
            threads.get(row.thread).push(row);
        }
        const own = threads.get(name) || [];
        const last = own[own.length - 1];
        const frame = last ? last.frames.after : {};
        return {
            cause: frame.cause || null,
            error: about.error,
            execution: name,
            input: own.length && own[0].kind === "start" ? own[0].output : null,
            machine: about.machine,
            output: frame.output === undefined ? null : frame.output,
            state: about.state,
            status: about.status,
            step: about.status === "failed" && last ? last.step : null,
            threads: [...threads.keys()].sort(compareThreads).map((thread) => {
                const steps = threads.get(thread);
                return { closed: false, frame: steps[steps.length - 1].frames.after, move: null, steps, thread };
            }),
        };
    }

    found(rest) {
        const [, text, most] = /^(.*?)(?: most (\d+))?$/s.exec(rest);
        const wanted = text.toLowerCase();
        const steps = [];
        let more = false;
        for (let place = this.rows.length - 1; place >= 0 && !more; place -= 1) {
            if (!this.has(this.rows[place], wanted)) continue;
            if (steps.length < Number(most || 100)) steps.push({ ...this.rows[place], place });
            else more = true;
        }
        return { more, steps };
    }

    has(row, text) {
        const error = row.outcome.error || "";
        return [row.step, row.state || "", error, row.key ? jsonText(row.key) : ""].some((part) => part.toLowerCase().includes(text));
    }

    accesses() {
        if (!this.byKey) {
            this.byKey = new Map();
            for (const row of this.rows) {
                if (!row.key) continue;
                const word = jsonText(row.key);
                if (!this.byKey.has(word)) this.byKey.set(word, []);
                this.byKey.get(word).push(row);
            }
        }
        return this.byKey;
    }

    now(word) {
        const rows = this.accesses().get(word);
        return rows[rows.length - 1].items.after;
    }

    items() {
        const items = [...this.accesses().entries()].map(([word, rows]) => {
            const writer = rows.filter((row) => row.access === "write").pop();
            return { item: this.now(word), key: rows[0].key, writer: writer ? writer.step : null };
        });
        items.sort((one, other) => compareKeys(one.key, other.key));
        return { items, more: false };
    }

    item(text) {
        const rows = [...this.accesses().values()].find(([row]) => keyWord(row.key) === text || jsonText(row.key) === text);
        if (!rows) throw new NoAnswer(text + " is no item of this page");
        const accesses = rows.map((row) => ({ access: row.access, after: row.items.after, before: row.items.before, step: row.step }));
        return { accesses, key: rows[0].key, more: false, now: this.now(jsonText(rows[0].key)) };
    }
}
"####;
