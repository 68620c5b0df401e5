//! What is said of steps, statuses and reasons.

pub(crate) fn text() -> &'static str {
    WORDS
}

const WORDS: &str = r####"
const KINDS = {
    start: "start",
    plain: "state",
    call: "call",
    fork: "fork",
    join: "join",
    terminate: "terminate",
};
const KIND_SAYS = {
    start: "the start of an execution",
    plain: "a state that calls nothing",
    call: "a call of the table",
    fork: "the beginning of branches",
    join: "the end of branches that are done",
    terminate: "the end of branches of which one has failed",
};
const REASONS = {
    thread: "the same thread goes on",
    start: "its execution was started there",
    fork: "its branch was forked there",
    join: "the branch is joined",
    item: "the same item",
    bound: "it waited for that branch",
};
const ACCESSES = { read: "reads", write: "writes", refused: "refused at" };

// What of a step is to be seen at once: that it failed, was caught, or is tried again.
function outcomeWord(row) {
    const to = row.outcome ? row.outcome.to : null;
    return { failed: "failed", caught: "caught", retry: "retried" }[to] || "";
}

function outcomeText(outcome) {
    switch (outcome ? outcome.to : "") {
        case "next": return "goes on to " + shown(outcome.state);
        case "retry": return "is tried again (retried)";
        case "caught": return "is caught, and goes on to " + shown(outcome.state);
        case "done": return "is done";
        case "failed": return "has failed with " + shown(outcome.error || "no error's name");
        case "forked": return "goes into " + counted(outcome.branches, "branch", "branches");
        default: return "";
    }
}

function stateName(row) {
    return row.state === null ? "Start" : shown(row.state);
}

function kindText(row) {
    return row.kind === "plain" ? row.type : KINDS[row.kind];
}

function callText(row) {
    if (!row.key) return "";
    return ACCESSES[row.access] + " " + short(keyText(row.key), 80);
}

// What a reader of a screen hears of a box.
function boxLabel(row) {
    const parts = [row.step, stateName(row), KIND_SAYS[row.kind], callText(row), outcomeWord(row)];
    return parts.filter(Boolean).join(", ");
}

function frameText(frame) {
    if (!frame) return "not there yet";
    const at = frame.state === null ? "" : " state " + shown(frame.state);
    switch (frame.phase) {
        case "ready": return "before" + at;
        case "parked": return "in" + at + ", waits for " + counted(frame.branches, "branch", "branches");
        case "done": return "done" + (at ? ", in" + at : "");
        default: return "failed" + (at ? " in" + at : "") + (frame.error ? " with " + shown(frame.error) : "");
    }
}

const STATUSES = ["failed", "open", "done"];

function statusMark(status) {
    return el("span", { class: "status " + status }, status);
}

function timeText(milliseconds) {
    if (!milliseconds) return "";
    const then = new Date(milliseconds);
    const pad = (number) => String(number).padStart(2, "0");
    const clock = [then.getHours(), then.getMinutes(), then.getSeconds()].map(pad).join(":");
    const day = [then.getFullYear(), pad(then.getMonth() + 1), pad(then.getDate())].join("-");
    return new Date().toDateString() === then.toDateString() ? clock : day + " " + clock;
}
"####;
