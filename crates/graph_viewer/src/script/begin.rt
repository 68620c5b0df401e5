//! The beginning: a page begins by itself with the data that it has, and the console's own script begins it with a running book.

pub(crate) fn text() -> &'static str {
    BEGIN
}

const BEGIN: &str = r####"
async function begin(source) {
    app.source = source;
    buildFrame();
    buildNav();
    app.bookName.textContent = source.name || "";
    await source.load();
    await route();
}

// What the console's own script uses, the one name that is left behind.
window.rollback = {
    ACCESSES, KINDS, NoAnswer, REASONS, RowTable, Picture, STATUSES,
    addView, addressOf, app, begin, busyButton, button, copyButton, counted, el, executionLink, executionOf, fill, go, itemLink, jsonText,
    keyText, later, link, notice, put, readJson, route, short, showDialog, shown, slots, statusMark, stepAddress, stepLink, steadily, svg, tellNews,
    timeText, valueBlock,
};

const data = document.getElementById("book");
if (data) begin(new PageBook(readJson(data.textContent)));
})();
"####;
