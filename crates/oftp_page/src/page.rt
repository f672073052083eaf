//! The page for people, the text of page.html: written by `checks/lint/page.py --write`.

/// What a request for `/` is answered with: one text of HTML, in which all is that it needs.
pub const PAGE: &str = r###"<!doctype html>
<html lang="en">
<head>
<meta charset="utf-8">
<meta http-equiv="Content-Security-Policy" content="default-src 'none'; connect-src 'self'; img-src data:;
  script-src 'sha256-WR3wQywvqNzoCo6G0+5SXQ0ucajbZNWfzt2uRIdvRKQ='; style-src 'sha256-oHlOKeAmVKqdRAC1EKe32uR6dD5ICUXaH3n6S/fnLK8=';
  base-uri 'none'; form-action 'none'; require-trusted-types-for 'script'; trusted-types 'none'">
<meta name="viewport" content="width=device-width, initial-scale=1">
<meta name="color-scheme" content="light dark">
<meta name="referrer" content="no-referrer">
<title>OFTP2 station</title>
<link rel="icon" href="data:,">
<style>
:root {
  --ground: #f6f7f8; --sheet: #ffffff; --line: #d9dee3; --edge: #76818c; --faint: #eef1f4;
  --ink: #1c242c; --soft: #55616d; --link: #1f5fa8;
  --act: #8a4b00; --act-ground: #fff6e5; --act-line: #b9761a;
  --bad: #a3262a; --bad-ground: #fdf0ef; --bad-line: #c9514e;
  --good: #256b3e; --wait: #2c5d8f;
}
@media (prefers-color-scheme: dark) {
  :root {
    --ground: #14181c; --sheet: #1b2126; --line: #333c45; --edge: #7d8995; --faint: #232a31;
    --ink: #e3e8ec; --soft: #a3afba; --link: #8cbdf2;
    --act: #f0bd6c; --act-ground: #2d2617; --act-line: #b67d24;
    --bad: #f3a19d; --bad-ground: #311f20; --bad-line: #c05f5c;
    --good: #86cf9f; --wait: #9dc4ec;
  }
}
* { box-sizing: border-box; }
html { background: var(--ground); color: var(--ink); font: 15px/1.4 system-ui, "Segoe UI", Roboto, "DejaVu Sans", sans-serif; overflow-anchor: none; }
body { max-width: 83rem; margin: 0 auto; padding: 1.1rem 1.5rem 4rem; overflow-wrap: anywhere; }
h1, h2, p, ul, dl, dd, table { margin: 0; padding: 0; }
ul { list-style: none; }
a, summary { color: var(--link); }
[hidden] { display: none !important; }
.unseen, .skip:not(:focus) { position: absolute; width: 1px; height: 1px; overflow: hidden; clip-path: inset(50%); white-space: nowrap; }
.skip { position: absolute; z-index: 2; padding: .4rem .85rem; background: var(--sheet); }
:focus-visible, input:focus-within { outline: 2px solid var(--link); outline-offset: 2px; border-radius: 3px; }

header { display: flex; flex-wrap: wrap; align-items: baseline; justify-content: space-between; gap: .2rem 1.5rem; }
h1 { font-size: 1.35rem; font-weight: 600; letter-spacing: -.01em; }
h1 span { color: var(--soft); font-size: .95rem; letter-spacing: 0; }
#updated, #rules, #unlooked, #paths, #shown, #stamps { color: var(--soft); font-size: .87rem; font-variant-numeric: tabular-nums; }
#trouble { margin-top: .75rem; padding: .6rem .9rem; border-left: 4px solid var(--bad-line); background: var(--bad-ground); color: var(--bad); }

h2 { margin-top: .9rem; color: var(--soft); font-size: .87rem; font-weight: 400; }
#todo { display: flex; flex-wrap: wrap; gap: .5rem .6rem; margin: .2rem 0 .5rem; }
#todo a { display: block; height: 100%; padding: .35rem .8rem; border: 1px solid; border-left-width: 4px; border-radius: 4px; text-decoration: none; }
#todo a:hover, #views a:hover { text-decoration: underline; }
#todo strong { font-size: 1.2rem; font-variant-numeric: tabular-nums; }
#todo .act { border-color: var(--act-line); background: var(--act-ground); color: var(--act); }
#todo .bad { border-color: var(--bad-line); background: var(--bad-ground); color: var(--bad); }
#idle { margin: .2rem 0 .5rem; color: var(--good); }
#paths summary { cursor: pointer; width: fit-content; }
#paths > div { display: flex; flex-wrap: wrap; gap: .4rem 1rem; margin-top: .3rem; }
#paths > div > div { flex: 1 1 14rem; min-width: 0; }

#views { display: flex; flex-wrap: wrap; gap: 0 1.75rem; margin-top: .9rem; border-bottom: 1px solid var(--line); }
#views a { display: block; padding: .4rem 0; border-bottom: 3px solid transparent; color: var(--soft); text-decoration: none; }
#views a[aria-current] { border-bottom-color: var(--link); color: var(--ink); font-weight: 600; }
#views .count { font-weight: 400; color: var(--soft); font-variant-numeric: tabular-nums; }

form { display: flex; flex-wrap: wrap; align-items: end; gap: .5rem .75rem; margin-top: .7rem; }
form > div { flex: 1 1 10rem; min-width: 0; }
form > .day { flex-basis: 8rem; }
form > .wide { flex: 2 1 14rem; }
label { display: block; color: var(--soft); font-size: .87rem; }
select, input, button { width: 100%; height: 2.2rem; margin-top: .1rem; padding: 0 .6rem; border: 1px solid var(--edge); border-radius: 4px;
  background: var(--sheet); color: var(--ink); font: inherit; font-size: 14px; }
button { width: auto; padding: 0 1rem; cursor: pointer; }
button:hover { border-color: var(--ink); }
#clear:disabled { visibility: hidden; }
#fold, form > .sort { display: none; }
.line { display: flex; flex-wrap: wrap; justify-content: space-between; gap: 0 1.5rem; margin-top: .6rem; }

table { width: 100%; margin-top: .4rem; border: 1px solid var(--line); border-collapse: separate; border-spacing: 0; table-layout: fixed;
  background: var(--sheet); font-size: 14px; }
th, td { padding: .5rem .7rem; border-bottom: 1px solid var(--line); text-align: left; vertical-align: top; font-weight: 400; }
tbody:last-child tr:last-child > * { border-bottom: 0; }
thead th { position: sticky; top: 0; z-index: 1; padding: .1rem .7rem; background: var(--faint); }
thead button { width: 100%; padding: 0; border: 0; background: none; color: var(--soft); font-size: .87rem; text-align: inherit; }
thead button:hover { color: var(--ink); text-decoration: underline; }
[aria-sort] button { color: var(--ink); }
.no { width: 6.2rem; text-align: right; font-variant-numeric: tabular-nums; white-space: nowrap; }
.partner { width: 17%; }
.when { width: 11.4rem; font-variant-numeric: tabular-nums; white-space: nowrap; }
.changed { width: 7.4rem; font-variant-numeric: tabular-nums; white-space: nowrap; }
.size { width: 5.8rem; text-align: right; font-variant-numeric: tabular-nums; white-space: nowrap; }
.file { width: 6.8rem; }
.state { width: 29%; }
tbody .when, tbody .changed, tbody .file { color: var(--soft); }
.when bdi, .cut { overflow: hidden; text-overflow: ellipsis; white-space: nowrap; }
.when bdi { display: block; }
.few { display: -webkit-box; -webkit-box-orient: vertical; -webkit-line-clamp: 3; overflow: hidden; }
tbody .name > div, tbody .state > div { display: flex; gap: .6rem; align-items: baseline; }
.name .few { flex: 0 1 auto; font-weight: 600; }
.about, .detail { flex: 1 1 3ch; min-width: 3ch; color: var(--soft); font-size: .93em; }
.words { font-weight: 600; }
.words::before { content: ""; display: inline-block; width: .55em; height: .55em; margin-right: .5em; border-radius: 50%; background: currentColor;
  vertical-align: .08em; }
.act .detail, .bad .detail { flex-basis: auto; white-space: normal; }
.act .words { color: var(--act); }
.bad .words { color: var(--bad); }
.good .words { color: var(--good); }
.wait .words { color: var(--wait); }
.rest .words { color: var(--soft); }
.fail .words { color: var(--bad); }
tbody > tr:first-child { cursor: pointer; }
tbody.act { background: var(--act-ground); }
tbody.bad { background: var(--bad-ground); }
tbody.act tr > :first-child { box-shadow: inset 4px 0 var(--act-line); }
tbody.bad tr > :first-child { box-shadow: inset 4px 0 var(--bad-line); }
tbody.act .state > div, tbody.bad .state > div { flex-wrap: wrap; row-gap: 0; }
tbody.has_more > tr:first-child > * { border-bottom: 0; }
.more > td { padding: 0 .7rem .6rem 1.4rem; }
.open { width: 1.3rem; height: 1.3rem; margin: 0; padding: 0; border: 0; background: none; color: var(--soft); font-size: 12px; }
.open:hover { color: var(--ink); }
code { padding: .1rem .4rem; border: 1px solid var(--line); border-radius: 4px; background: var(--sheet); font-size: 13px; }
.copy { height: 1.6rem; margin: 0 0 0 .3rem; padding: 0 .6rem; font-size: 13px; }
dl { display: grid; grid-template-columns: max-content minmax(0, 1fr); gap: .1rem 1rem; margin-top: .3rem; }
dt { color: var(--soft); }
body:has(.has_changes) { max-width: 96rem; }
#none { padding: 2.5rem 1rem; border: 1px solid var(--line); border-top: 0; background: var(--sheet); color: var(--soft); text-align: center; }
#next { display: block; margin: 1rem auto 0; }

@media (min-width: 62.01rem) and (max-width: 88rem) {
  /* Here is no room for both: the details have the stamp, too. */
  .has_changes .when { width: 0; padding: 0; visibility: hidden; }
  .has_changes .when > * { display: none; }
}
@media (max-width: 62rem) {
  body { padding: .9rem .9rem 3rem; }
  #todo, #views { display: grid; grid-template-columns: repeat(auto-fit, minmax(8.5rem, 1fr)); }
  #fold { display: block; width: 100%; margin-top: .7rem; }
  form { display: none; grid-template-columns: repeat(auto-fit, minmax(10rem, 1fr)); }
  form.unfolded { display: grid; }
  form > .sort { display: block; }
  #clear:disabled { display: none; }
  table, tbody { display: block; }
  table { border: 0; background: none; }
  thead { position: absolute; width: 1px; height: 1px; overflow: hidden; clip-path: inset(50%); }
  thead button { visibility: hidden; }
  tbody { margin-top: .5rem; padding: .6rem .8rem; border: 1px solid var(--line); border-radius: 4px; background: var(--sheet); }
  tbody.act { border-left: 4px solid var(--act-line); }
  tbody.bad { border-left: 4px solid var(--bad-line); }
  tbody.act tr > :first-child, tbody.bad tr > :first-child { box-shadow: none; }
  tbody > tr:first-child { display: grid; grid-template-columns: minmax(0, 1fr) max-content; gap: .1rem .75rem; }
  tbody > tr.more, tbody > tr.more > td { display: block; }
  th, td, tbody .more > td { width: auto !important; min-width: 0; padding: 0; border: 0; }
  tbody .name { grid-area: 1 / 1; }
  tbody .name > div, tbody .state > div { flex-wrap: wrap; gap: 0 .6rem; }
  tbody .about { flex-basis: 100%; }
  tbody .detail { flex-basis: auto; white-space: normal; display: -webkit-box; -webkit-box-orient: vertical; -webkit-line-clamp: 2; }
  .few { -webkit-line-clamp: 2; }
  tbody .no { grid-area: 1 / 2; color: var(--soft); }
  .number::before { content: attr(data-head) " "; }
  tbody .partner { grid-area: 2 / 1 / auto / 3; }
  tbody .when { grid-area: 3 / 1; }
  tbody .size, tbody .file { grid-area: 3 / 2; color: var(--soft); text-align: right; }
  tbody .changed { grid-area: 4 / 1 / auto / 3; }
  tbody .changed bdi::before { content: attr(data-head) " "; }
  tbody .state { grid-area: 5 / 1 / auto / 3; }
  dl { grid-template-columns: minmax(0, 1fr); gap: 0; }
  #none { border-top: 1px solid var(--line); }
}
@media print {
  form, #fold, #next, #views, #paths { display: none; }
}
</style>
</head>
<body>
<a class="skip" id="skip" href="#list">Skip to the list</a>
<header>
  <h1><bdi id="code"></bdi> <span>OFTP2 station</span></h1>
  <p id="updated">Reading what the station holds&nbsp;…</p>
</header>
<p id="trouble" role="alert" hidden></p>
<p id="said" class="unseen" role="status"></p>
<noscript><p>This page needs JavaScript, which it has in itself. Without it, <a href="in">in</a>, <a href="out">out</a> and
<a href="responses">responses</a> have the same as text.</p></noscript>
<main id="main" hidden>
<h2>To do</h2>
<ul id="todo"></ul>
<p id="idle" hidden>No file needs anybody, by its state and its age.</p>
<p id="rules"></p>
<p id="unlooked"></p>
<details id="paths">
  <summary>Paths in the commands to copy</summary>
  <div>
    <div><label for="program">Program</label><input id="program" autocomplete="off" spellcheck="false"></div>
    <div><label for="database">Database</label><input id="database" autocomplete="off" spellcheck="false"></div>
    <div><label for="book">Book</label><input id="book" autocomplete="off" spellcheck="false"></div>
  </div>
</details>
<nav aria-label="Lists"><ul id="views"></ul></nav>
<button id="fold" type="button" aria-controls="filter" aria-expanded="false">Filter and sort</button>
<form id="filter" role="search" aria-label="Filter">
  <div><label for="partner">Partner</label><select id="partner"></select></div>
  <div><label for="state">State</label><select id="state"></select></div>
  <div class="day"><label for="since">From day</label><input id="since" type="date"></div>
  <div class="day"><label for="until">To day</label><input id="until" type="date"></div>
  <div class="wide"><label for="name">File name, description or number</label><input id="name" type="search" autocomplete="off"
    spellcheck="false"></div>
  <div class="sort"><label for="sort">Sorted by</label><select id="sort"></select></div>
  <button id="clear" type="reset">Clear filter</button>
</form>
<h2 class="unseen" id="heading"></h2>
<div class="line"><p id="shown" role="status"></p><p id="stamps"></p></div>
<table id="list" role="table" tabindex="-1">
  <caption class="unseen"></caption>
  <thead role="rowgroup"></thead>
</table>
<p id="none" hidden></p>
<button id="next" type="button" hidden>Show more</button>
</main>
<script>
"use strict";

// The pause between two renewals, and the timeout of a request, in milliseconds. A slow station is asked less often: the pause is at least
// TIMES as long as the last renewal took.
const PAUSE = 10_000;
const PATIENCE = 30_000;
const TIMES = 10;
// How many rows are drawn at once, which is as many as a person looks at.
const ROWS = 100;
// A text of a response with more characters is shortened where it stands beside what to do. The details have all of it.
const LONGEST = 120;
const MINUTE = 60_000;
const HOUR = 60 * MINUTE;
const DAY = 24 * HOUR;
// The age from which a file is late in a state, in milliseconds.
const LATE_AFTER = { closing: HOUR, open: DAY, release: DAY, waiting: DAY, partly: DAY, handed: DAY, eerp_due: DAY, nerp_due: DAY };
// These states in the sentence that tells the bounds.
const LATE_IF = {
  closing: "sent but not confirmed", open: "incomplete", release: "to be released", waiting: "waiting to be sent", partly: "partly sent",
  handed: "without EERP", eerp_due: "with an EERP to be sent", nerp_due: "with a NERP to be sent",
};
// The states whose age only an event tells, since a stamp is older than its file's response.
const BY_EVENTS = ["eerp_due", "nerp_due"];
// A closing file is late, too, once the page has seen it so for this long, which is twice the timeout of a session.
const CLOSING_SEEN = 10 * MINUTE;
// How far a clock somewhere on earth is ahead of UTC. A stamp that is further ahead tells no age.
const AHEAD = 14 * HOUR;
// By how much the station's clock may be ahead of an event when it counts the same contact, in milliseconds.
const SAME_CONTACT = 2000;
// How many numbers of files stand in one sentence.
const NAMED = 5;
// What the commands to copy begin with and name, unless somebody enters something else: an installation as docs/howto/install.md makes it.
const PATHS = { program: "sudo -u oftp oftp_station", database: "/var/lib/oftp/station.db", book: "/etc/oftp/book.toml" };

// ---- texts

const numbers = new Intl.NumberFormat("en");

// The reasons of SFNA (RFC 5024, section 5.3.5): why a partner refused a file.
const START_REASONS = {
  "01": "invalid filename", "02": "invalid destination", "03": "invalid origin", "04": "storage record format not supported",
  "05": "maximum record length not supported", "06": "file size too big", "10": "invalid record count", "11": "invalid byte count",
  "12": "access method failure", "13": "duplicate file", "14": "file direction refused", "15": "cipher suite not supported",
  "16": "encrypted file not allowed", "17": "unencrypted file not allowed", "18": "compression not allowed",
  "19": "signed file not allowed", "20": "unsigned file not allowed", "99": "unspecified",
};
// The reason of a partner who has the file already.
const DUPLICATE = "13";
// The reasons of NERP (section 5.3.14): why a file was returned.
const NEGATIVE_REASONS = {
  "03": "user code not known", "04": "invalid password", "09": "unspecified reason", "11": "invalid file name", "12": "invalid destination",
  "13": "invalid origin", "14": "invalid storage record format", "15": "maximum record length not supported", "16": "file size too big",
  "20": "invalid record count", "21": "invalid byte count", "22": "access method failure", "23": "duplicate file",
  "24": "file direction refused", "25": "cipher suite not supported", "26": "encrypted file not allowed",
  "27": "unencrypted file not allowed", "28": "compression not allowed", "29": "signed file not allowed",
  "30": "unsigned file not allowed", "31": "file signature not valid", "32": "file decompression failed", "33": "file decryption failed",
  "34": "file processing failed", "35": "not delivered to recipient", "36": "not acknowledged by recipient",
  "50": "transmission stopped by the operator", "90": "file size incompatible with recipient's protocol version", "99": "unspecified reason",
};
// The reasons of ESID (section 5.3.11): why a session was ended.
const SESSION_REASONS = {
  "00": "normal", "01": "command not recognised", "02": "protocol violation", "03": "user code not known", "04": "invalid password",
  "05": "local site emergency close down", "06": "invalid data", "07": "buffer size error", "08": "resources not available",
  "09": "time out", "10": "mode or capabilities incompatible", "11": "invalid challenge response",
  "12": "secure authentication requirements incompatible", "99": "unspecified abort code",
};
const FORMATS = { F: "fixed", V: "variable", U: "unstructured", T: "text" };
const DAYS = ["Sun", "Mon", "Tue", "Wed", "Thu", "Fri", "Sat"];

// The states of each list: the text, and the style (act and bad need a person). Those that need a person also have their text above the list
// (`many` for more than one file, where it differs), and a sentence on what to do.
const STATES = {
  in: {
    open: { words: "Incomplete", look: "wait" },
    open_late: {
      words: "Incomplete, late", look: "act", sums: "incomplete, late",
      hint: "The rest hasn't come. Ask the partner to send the file again: its transfer goes on where it broke.",
    },
    release: { words: "To be released", look: "act", sums: "to be released", hint: "Take it, then release it or refuse it:" },
    release_late: {
      words: "To be released, late", look: "act", sums: "to be released, late",
      hint: "Its sender waits for the EERP. Take it, then release it or refuse it:",
    },
    eerp_due: { words: "Released, EERP not yet sent", look: "wait" },
    eerp_due_late: {
      words: "Released, EERP not sent, late", look: "act", sums: "EERP not sent, late", many: "EERPs not sent, late",
      hint: "No session has taken it. Call the partner, and look at how the session ends.",
    },
    eerp_sent: { words: "Released, EERP sent", look: "good" },
    nerp_due: { words: "Refused here, NERP not yet sent", look: "wait" },
    nerp_due_late: {
      words: "Refused here, NERP not sent, late", look: "act", sums: "NERP not sent, late", many: "NERPs not sent, late",
      hint: "No session has taken it. Call the partner, and look at how the session ends.",
    },
    nerp_sent: { words: "Refused here, NERP sent", look: "rest" },
  },
  out: {
    waiting: { words: "Waiting to be sent", look: "wait" },
    waiting_late: {
      words: "Waiting to be sent, late", look: "act", sums: "waiting to be sent, late",
      hint: "No session has taken it. Call the partner, and look at how the session ends.",
    },
    partly: { words: "Partly sent", look: "wait" },
    partly_late: {
      words: "Partly sent, late", look: "act", sums: "partly sent, late",
      hint: "The rest hasn't gone. Call the partner, and look at how the session ends.",
    },
    closing: { words: "Sent, not yet confirmed", look: "wait" },
    closing_late: {
      words: "Sent, not confirmed, late", look: "act", sums: "not confirmed, late",
      hint: "All of it was sent, and the partner hasn't said that it has it. Call the partner: the next session settles it.",
    },
    handed: { words: "Handed over", look: "wait" },
    handed_late: {
      words: "EERP overdue", look: "act", sums: "EERP overdue", many: "EERPs overdue",
      hint: "The partner has it, and hasn't said what became of it. Ask the partner.",
    },
    delivered: { words: "Delivered", look: "good" },
    refused: {
      words: "Refused by the partner", look: "bad", sums: "refused by a partner",
      hint: "Correct what the reason names, and submit it with another date or time.",
    },
    duplicate: {
      words: "Refused as a duplicate", look: "act", sums: "refused as a duplicate", many: "refused as duplicates",
      hint: "The partner has it: don't send it again before asking.",
    },
    refused_again: { words: "Refused, name used again", look: "rest" },
    returned: {
      words: "Returned (NERP)", look: "bad", sums: "returned by a partner",
      hint: "Ask the partner, and submit it with another date or time.",
    },
    returned_again: { words: "Returned, name used again", look: "rest" },
  },
  received: {
    eerp: { words: "Delivered (EERP)", look: "good" },
    nerp: { words: "Returned (NERP)", look: "rest" },
  },
  issued: {
    eerp_due: { words: "EERP not yet sent", look: "wait" },
    eerp_sent: { words: "EERP sent", look: "good" },
    nerp_due: { words: "NERP not yet sent", look: "wait" },
    nerp_sent: { words: "NERP sent", look: "rest" },
  },
  sessions: {
    good: { words: "Ended in order", look: "good" },
    broken: { words: "Ended otherwise", look: "fail" },
    unreached: { words: "Not reached", look: "fail" },
    rejected: { words: "Not let in", look: "fail" },
  },
  partners: {
    unreached: {
      words: "Not reached", look: "bad", sums: "partner not reached", many: "partners not reached",
      hint: "Look at its address in the book and at the network, and call it.",
    },
    broken: {
      words: "Last session ended otherwise", look: "act", sums: "partner whose last session failed", many: "partners whose last session failed",
      hint: "Correct what the end names, and call the partner.",
    },
    talking: { words: "In session", look: "wait" },
    good: { words: "Last session ended in order", look: "good" },
    unknown: { words: "No contact known", look: "rest" },
  },
};

// The state of a refused file after its response.
const ANSWERED = { EERP: "delivered", NERP: "returned" };
// The state of a file that was refused or returned, once a later one has its name.
const AGAIN = { refused: "refused_again", duplicate: "refused_again", returned: "returned_again" };

// Whose clock stamped the files of a list. A stamp has no zone. This station's own are in UTC, a sender's may be anything.
const OURS = "ours";
const SENDERS = "senders";
// What has no stamp has the time at which this station did it.
const OWN_TIMES = "times";

// The lists: the title, whose stamps it has, the columns with their headings, and the text of an empty list.
const VIEWS = {
  in: {
    title: "Incoming", noun: "file", caption: "Incoming files", stamps: SENDERS, none: "No file has come in yet.",
    columns: { no: "No.", partner: "From", name: "File", when: "Sender's stamp", size: "Size", state: "State" },
  },
  out: {
    title: "Outgoing", noun: "file", caption: "Outgoing files", stamps: OURS, none: "No file has been submitted yet.",
    columns: { no: "No.", partner: "To", name: "File", when: "Stamp", size: "Size", state: "State" },
  },
  received: {
    title: "Responses received", noun: "response", caption: "Responses that came from partners", stamps: OURS,
    none: "No response has come yet.",
    columns: { no: "No.", partner: "From", name: "File", when: "File's stamp", file: "Answers", state: "Response" },
  },
  issued: {
    title: "Responses issued", noun: "response", caption: "Responses to incoming files", stamps: SENDERS,
    none: "No file has been released or refused yet.",
    columns: { no: "File", partner: "To", name: "File name", when: "Sender's stamp", state: "Response" },
  },
  sessions: {
    title: "Sessions", noun: "session", caption: "Sessions, calls and callers that the events tell", stamps: OWN_TIMES,
    none: "The events tell no session yet.",
    columns: { no: "Session", partner: "Partner", name: "What was done", when: "Ended", size: "Data", state: "End" },
  },
  partners: {
    title: "Partners", noun: "partner", caption: "Partners and the last contact with each", stamps: OWN_TIMES, none: "The book has no partner.",
    columns: { no: "No.", partner: "Partner", name: "What waits", when: "Last contact", state: "State" },
  },
};
// The lists of files and responses. Where there are events, these have the time of the last change, too.
const OF_FILES = ["in", "out", "received", "issued"];
const CHANGED = { changed: "Last change" };

// ---- what the station tells of itself, and its events

// What `/status` has, and the last events, oldest first. Null is that the station doesn't tell them, which is never shown as if all were well.
let standing = null;
let events = null;
// The changes of each file that the events tell, oldest first, by the file's way and identity.
let histories = new Map();

// The events in lines of JSON. A line that is none, as a full disk leaves it, tells nothing.
function eventsIn(text) {
  return text.split("\n").map(eventIn).filter(Boolean);
}

function eventIn(line) {
  try {
    const event = JSON.parse(line);
    const file = stampOfTime(String(event.at));
    return file && { ...event, ...texts(event), stamped: file, at: momentOf(file) };
  } catch {
    return null;
  }
}

// The texts of an event, as texts whatever stands there.
function texts(event) {
  const keys = ["event", "partner", "way", "peer", "dataset", "date", "time", "originator", "destination", "kind", "reason", "words", "text", "end"];
  return Object.fromEntries(keys.map((key) => [key, String(event[key] ?? "")]));
}

// A time in UTC as a file's stamp: its date and its time, with four digits of the second's fraction.
function stampOfTime(at) {
  const found = /^(\d{4})-(\d\d)-(\d\d)T(\d\d):(\d\d):(\d\d)\.(\d{4})\d*Z$/.exec(at);
  const stamp = found && { date: found.slice(1, 4).join(""), time: found.slice(4, 8).join("") };
  return stamp && momentOf(stamp) !== null ? stamp : null;
}

function identityOf(way, { dataset, date, time, originator, destination }) {
  return JSON.stringify([way, dataset, date, time, originator, destination]);
}

function takeEvents(found) {
  if (found === events) {
    return;
  }
  events = found;
  histories = new Map();
  for (const event of (events ?? []).filter(({ date }) => date)) {
    const key = identityOf(event.way, event);
    const changes = histories.get(key) ?? [];
    histories.set(key, changes);
    changes.push(event);
  }
}

// The changes of a file of this way that the events tell, oldest first.
function changesOf(way, file) {
  return (histories.size && histories.get(identityOf(way, file))) || [];
}

// The event with which each state began. A file that was taken up again after its transfer broke is as old as before.
const BEGUN_BY = {
  release: "came", eerp_due: "released", nerp_due: "refused here", waiting: "submitted", partly: "submitted", closing: "sent",
  handed: "handed over",
};

function begunIn(state, changes) {
  if (state !== "open") {
    return changes.findLast(({ event }) => event === BEGUN_BY[state]) ?? null;
  }
  const last = changes.findLastIndex(({ event }) => event === "given up");
  return changes.slice(last + 1).find(({ event }) => event === "started to come") ?? null;
}

// What an event says, as a sentence without its end.
function wordsOf({ event, kind, reason, words, text }) {
  const why = [reason, words].filter(Boolean).join(" ");
  const said = `${event.slice(0, 1).toUpperCase()}${event.slice(1)}${kind ? ` (${kind})` : ""}`;
  return [said, why, text && `“${text}”`].filter(Boolean).join(": ");
}

// How a session ended, in words, and in which state that leaves its partner.
function endOf(line) {
  const end = line.replace(/^end: /, "");
  const [, side, number] = /^(own|partner) (\d\d)$/.exec(end) ?? [];
  if (!side) {
    return { state: "broken", words: end === "input" ? "the connection broke off" : end };
  }
  const by = side === "own" ? "sent by this station" : "sent by the partner";
  return { state: number === "00" ? "good" : "broken", words: `${reasonText(number, SESSION_REASONS)}, ${by}` };
}

// What an event says of the contact with its partner, if it is of one: when, in which state that leaves the partner, and its end in words.
function contactOf({ event, at, words, end, stamped }) {
  if (event === "session ended") {
    return { at, stamped, ...endOf(end) };
  }
  return event === "not reached" ? { at, stamped, state: "unreached", words } : null;
}

// What a counter of the station says of that.
function contactCounted({ kind, end, last }) {
  const at = last * 1000;
  const stamped = stampOfTime(`${new Date(at).toISOString().slice(0, 19)}.0000Z`);
  if (kind === "session") {
    return { at, stamped, ...endOf(end) };
  }
  return kind === "not reached" ? { at, stamped, state: "unreached", words: "" } : null;
}

// The last contact with each partner. Of a contact that both tell, the event tells more.
function lastContacts() {
  const [told, counted] = [new Map(), new Map()];
  const keep = (map, partner, contact) => {
    if (contact && (map.get(partner)?.at ?? 0) <= contact.at) {
      map.set(partner, contact);
    }
  };
  (events ?? []).filter(({ partner }) => partner).forEach((event) => keep(told, event.partner, contactOf(event)));
  (standing?.counters ?? []).forEach((counter) => keep(counted, counter.partner, contactCounted(counter)));
  for (const [partner, contact] of counted) {
    if ((told.get(partner)?.at ?? 0) + SAME_CONTACT <= contact.at) {
      told.set(partner, contact);
    }
  }
  return told;
}

// What waits for a partner or of it, by how its files stand.
const WAITING = {
  waiting: "to be sent", closing: "to be confirmed", due: "to be answered", open: "incomplete", whole: "to be released", handed: "without EERP",
};

function waitingText(code) {
  const files = (standing?.files ?? []).filter(({ partner, state }) => partner === code && Object.hasOwn(WAITING, state));
  return files.map(({ state, count }) => `${numbers.format(count)} ${WAITING[state]}`).join(", ");
}

// ---- dates and times

// A stamp read as UTC. It is null if it is no valid date and time: a partner may send any digits.
function momentOf({ date, time }) {
  if (!/^\d{8}$/.test(date) || !/^\d{10}$/.test(time)) {
    return null;
  }
  const [year, month, day] = [+date.slice(0, 4), +date.slice(4, 6), +date.slice(6)];
  const [hours, minutes, seconds] = [+time.slice(0, 2), +time.slice(2, 4), +time.slice(4, 6)];
  const moment = Date.UTC(year, month - 1, day, hours, minutes, seconds);
  const at = new Date(moment);
  const isDay = at.getUTCFullYear() === year && at.getUTCMonth() === month - 1 && at.getUTCDate() === day;
  return isDay && hours < 24 && minutes < 60 && seconds < 60 ? moment : null;
}

function two(number) {
  return String(number).padStart(2, "0");
}

// A moment by the clock of the browser's zone.
function localText(moment) {
  const at = new Date(moment);
  const day = `${String(at.getFullYear()).padStart(4, "0")}-${two(at.getMonth() + 1)}-${two(at.getDate())}`;
  return `${day} ${two(at.getHours())}:${two(at.getMinutes())}:${two(at.getSeconds())}`;
}

// A stamp as it is written, without its counter.
function writtenText({ date, time }) {
  const day = `${date.slice(0, 4)}-${date.slice(4, 6)}-${date.slice(6)}`;
  return `${day} ${time.slice(0, 2)}:${time.slice(2, 4)}:${time.slice(4, 6)}`;
}

// A stamp as its list shows it, or its digits if it is no date and time.
function stampText(view, file, moment) {
  if (moment === null) {
    return [file.date, file.time].filter(Boolean).join(" ");
  }
  return VIEWS[view].stamps === SENDERS ? writtenText(file) : localText(moment);
}

// The whole stamp, and what it says.
function stampFact({ view, file, moment }) {
  if (moment === null) {
    const digits = stampText(view, file, moment);
    return digits && `${digits}, which is no date and time`;
  }
  const whole = `${writtenText(file)}.${file.time.slice(6)}`;
  return VIEWS[view].stamps !== SENDERS ? `${whole} UTC` : `${whole}, without a zone; read as UTC it is ${localText(moment)} here`;
}

// A moment in few signs: the time if it is of these days, or else the day.
function shortText(moment) {
  const [text, today] = [localText(moment), localText(Date.now())];
  const days = Math.round((Date.parse(today.slice(0, 10)) - Date.parse(text.slice(0, 10))) / DAY);
  const time = text.slice(11, 16);
  return days === 0 ? `today ${time}` : days > 0 && days < 7 ? `${DAYS[new Date(moment).getDay()]} ${time}` : text.slice(0, 10);
}

function zoneText() {
  const minutes = -new Date().getTimezoneOffset();
  const [hours, rest] = [Math.floor(Math.abs(minutes) / 60), Math.abs(minutes) % 60];
  return minutes ? `UTC${minutes < 0 ? "−" : "+"}${hours}${rest ? `:${two(rest)}` : ""}` : "UTC";
}

function spanOf(time) {
  const [size, unit] = time < HOUR ? [MINUTE, "minute"] : time < 2 * DAY ? [HOUR, "hour"] : [DAY, "day"];
  return counted(Math.floor(time / size), unit);
}

// ---- the items of the lists, each of which becomes a row

// Each item has its view, its number and how that is shown, its partner and its state, the object with the file's name, date and time, the response if there is one, the stamp
// as a moment, the file's age, its changes by the events, and the number of the later file of its name. What is no file has `facts`, and its
// end in words (`told`).
const lists = { in: [], out: [], received: [], issued: [], sessions: [], partners: [] };
let partners = [];
// When the page first saw each outgoing file as closing, by the file's number.
const closingSince = new Map();

function itemOf(view, no, partner, file, response, changes = []) {
  const moment = momentOf(file);
  return { view, no, number: String(no), partner, file, response, changes, moment, age: null, later: null, told: "", facts: null, state: "" };
}

// How long a file has been in this state, in milliseconds, or null if nobody knows: by the station's events, and else by its stamp.
function ageOf({ changes, moment }, state) {
  const since = begunIn(state, changes)?.at ?? (BY_EVENTS.includes(state) ? null : moment);
  const now = Date.now();
  return since === null || since > now + AHEAD ? null : now - since;
}

// Sets the age of an item in this state, and returns whether that is late, as a state.
function lateOrNot(item, state) {
  item.age = ageOf(item, state);
  return item.age !== null && item.age >= LATE_AFTER[state] ? `${state}_late` : state;
}

function incomingItem(file, response) {
  const item = itemOf("in", file.no, file.originator, file, response, changesOf("in", file));
  let state = file.state;
  if (state === "whole") {
    state = file.response === "none" ? "release" : responseState(file.response, response?.sent);
  }
  item.state = lateOrNot(item, state);
  return item;
}

function responseState(kind, isSent) {
  return `${kind.toLowerCase()}_${isSent ? "sent" : "due"}`;
}

function outgoingItem(file, response, newest) {
  const item = itemOf("out", file.no, file.destination, file, response, changesOf("out", file));
  item.later = newest > file.no ? newest : null;
  item.state = outgoingState(item);
  return item;
}

function outgoingState(item) {
  const { file, response, later } = item;
  let state = file.state;
  if (state === "refused") {
    state = response ? ANSWERED[response.kind] : file.reason === DUPLICATE ? "duplicate" : "refused";
  } else if (state === "waiting" && file.mark > 0) {
    state = "partly";
  }
  const timely = lateOrNot(item, state);
  if (state === "closing" && isSeenForLong(file)) {
    return "closing_late";
  }
  return later !== null && Object.hasOwn(AGAIN, state) ? AGAIN[state] : timely;
}

function isSeenForLong(file) {
  const since = closingSince.get(file.no) ?? Date.now();
  closingSince.set(file.no, since);
  return Date.now() - since >= CLOSING_SEEN;
}

function receivedItem(response, file) {
  const changes = file ? changesOf("out", file).filter(({ event }) => event === "response received") : [];
  const item = itemOf("received", response.no, response.from, response, response, changes);
  item.state = response.kind.toLowerCase();
  return item;
}

function issuedItem(response, file) {
  const named = file ?? { dataset: "", date: "", time: "", originator: "" };
  const changes = changesOf("in", named).filter(({ event }) => ["released", "refused here", "response sent"].includes(event));
  const item = itemOf("issued", response.no, named.originator, named, response, changes);
  item.state = responseState(response.kind, response.sent);
  return item;
}

// The sessions that the events tell to have ended, calls that didn't connect, and callers that weren't let in. Each has its time as number, so
// that it keeps this while others come and the first ones go.
function sessionItems() {
  let last = 0;
  return (events ?? []).filter(isOfSession).map((event) => {
    last = Math.max(last + 1, event.at * 10 + Number(event.stamped.time.slice(6)));
    return sessionItem(event, last);
  });
}

function sessionItem(event, no) {
  const { partner, peer, stamped, sent = 0, received = 0, octets_in = 0, octets_out = 0, reason, words, session, seconds = 0 } = event;
  const isSession = event.event === "session ended";
  const caller = event.event === "not reached" || event.way === "out" ? "this station" : "the partner";
  const done = isSession ? `${numbers.format(sent)} sent, ${numbers.format(received)} received` : "";
  const file = { dataset: done, description: peer, ...stamped, units: octets_in + octets_out, format: "" };
  const item = itemOf("sessions", no, partner, file, null);
  const { state, words: ended } = endOf(event.end);
  const states = { "session ended": state, "not reached": "unreached", "not let in": "rejected" };
  item.state = states[event.event];
  item.number = session ? String(session) : "–";
  item.told = isSession ? ended : [reason, words].filter(Boolean).join(" ");
  item.facts = [
    ["Called by", caller], ["Address", peer], ["Session", session && `${session} since the station's start`],
    ["Came", isSession && counted(octets_in, "byte")], ["Went", isSession && counted(octets_out, "byte")],
    ["Took", isSession && counted(seconds, "second")], ["End", item.told || event.end],
  ];
  return item;
}

// The partners of the book, and others with whom there was contact.
function partnerItems() {
  const contacts = lastContacts();
  const book = (standing?.partners ?? []).map(({ code }) => code);
  return [...new Set([...book, ...contacts.keys()])].map((code, at) => partnerItem(code, at + 1, contacts.get(code) ?? null));
}

function partnerItem(code, no, contact) {
  const file = { dataset: waitingText(code), description: "", date: "", time: "", ...contact?.stamped };
  const item = itemOf("partners", no, code, file, null);
  const next = standing?.partners?.find((partner) => partner.code === code)?.next_call;
  item.state = standing?.session?.partner === code ? "talking" : contact?.state ?? "unknown";
  item.told = contact?.words ?? "";
  item.facts = [
    ["Last contact", contact && `${localText(contact.at)}: ${[STATES.sessions[contact.state].words, item.told].filter(Boolean).join(", ")}`],
    ["Next call", next && localText(next * 1000)], ["Waits", file.dataset],
    ...(standing?.counters ?? []).filter(({ partner }) => partner === code).map((counter) => [
      "Since the start", `${counted(counter.count, counter.kind === "session" ? "session" : "call")}: ${contactCounted(counter)?.words || "not reached"}`,
    ]),
  ];
  return item;
}

// The responses to outgoing files, by the number of the file. Of two to one file the first counts, as for the station. But a refused file that
// has an EERP was released, whatever came before.
function responsesTo(received) {
  const [first, released, negative] = [new Map(), new Map(), new Map()];
  for (const response of received) {
    for (const map of [first, response.kind === "EERP" ? released : negative]) {
      map.set(response.file, map.get(response.file) ?? response);
    }
  }
  const of = { refused: (no) => released.get(no) ?? negative.get(no), returned: (no) => negative.get(no) };
  return ({ state, no }) => (Object.hasOwn(of, state) ? of[state](no) : first.get(no));
}

// The number of the newest file of each name, for each partner.
function newestOf(outgoing) {
  const newest = new Map();
  for (const { no, destination, dataset } of outgoing) {
    const names = newest.get(destination) ?? new Map();
    newest.set(destination, names.set(dataset, Math.max(no, names.get(dataset) ?? 0)));
  }
  return newest;
}

// Makes the items of the station's replies, newest first.
function takeLists(incoming, outgoing, responses) {
  const files = new Map(incoming.map((file) => [file.no, file]));
  const sent = new Map(outgoing.map((file) => [file.no, file]));
  const issued = new Map(responses.issued.map((response) => [response.no, response]));
  const responseTo = responsesTo(responses.received);
  const newest = newestOf(outgoing);
  const closing = new Set(outgoing.filter((file) => file.state === "closing").map((file) => file.no));
  for (const no of [...closingSince.keys()].filter((it) => !closing.has(it))) {
    closingSince.delete(no);
  }
  Object.assign(lists, {
    in: newestFirst(incoming.map((file) => incomingItem(file, issued.get(file.no)))),
    out: newestFirst(outgoing.map((file) => outgoingItem(file, responseTo(file), newest.get(file.destination).get(file.dataset)))),
    received: newestFirst(responses.received.map((response) => receivedItem(response, sent.get(response.file)))),
    issued: newestFirst(responses.issued.map((response) => issuedItem(response, files.get(response.no)))),
    sessions: newestFirst(sessionItems()),
    partners: partnerItems().sort((one, other) => (one.partner < other.partner ? -1 : 1)),
  });
  // A caller that wasn't let in may have claimed any code.
  const known = Object.values(lists).flat().filter(({ state }) => state !== "rejected");
  partners = [...new Set(known.map((item) => item.partner))].filter(Boolean).sort();
  byId("code").textContent = plain(outgoing.at(-1)?.originator ?? incoming.at(-1)?.destination ?? "");
}

function isOfSession({ event }) {
  return ["session ended", "not reached", "not let in"].includes(event);
}

function newestFirst(items) {
  return items.sort((one, other) => other.no - one.no);
}

function stateOf(item) {
  const states = STATES[item.view];
  return Object.hasOwn(states, item.state) ? states[item.state] : { words: item.state, look: "rest" };
}

// ---- the chosen list, filter and order, which are also in the fragment of the address

const choice = { view: "in", partner: "", name: "", state: "", since: "", until: "", sort: "" };
const FILTERS = ["partner", "name", "state", "since", "until"];
// The order of a list unless somebody chooses another one: newest first. A minus is before the column whose greatest comes first.
const NEWEST = "-no";
// That of the partners.
const BY_PARTNER = "partner";
// The columns whose greatest comes first once somebody sorts by them.
const FROM_GREATEST = ["no", "when", "changed", "size", "file"];
let mostRows = ROWS;

// The order of the chosen list.
function orderNow() {
  return choice.sort || (choice.view === "partners" ? BY_PARTNER : NEWEST);
}
// The items whose details are open, by their list and number.
const opened = new Set();

// Whether there is such a list. Sessions are told by events alone, and partners by whatever the station tells of itself.
function isShown(view) {
  const isTold = { sessions: events !== null, partners: events !== null || standing !== null };
  return Object.hasOwn(VIEWS, view) && (isTold[view] ?? true);
}

// The columns of a list, with their headings.
function columnsOf(view) {
  const { state, ...others } = VIEWS[view].columns;
  return { ...others, ...(events && OF_FILES.includes(view) ? CHANGED : {}), state };
}

function byId(id) {
  return document.getElementById(id);
}

function keyOf({ view, no }) {
  return `${view} ${no}`;
}

function readChoice() {
  const given = new URLSearchParams(location.hash.slice(1));
  for (const key of Object.keys(choice)) {
    choice[key] = given.get(key) ?? "";
  }
  choice.view = isShown(choice.view) ? choice.view : "in";
  choice.state = Object.hasOwn(STATES[choice.view], choice.state) ? choice.state : "";
  choice.sort = Object.hasOwn(columnsOf(choice.view), choice.sort.replace(/^-/, "")) ? choice.sort : "";
  for (const key of ["since", "until"]) {
    choice[key] = /^\d{4}-\d\d-\d\d$/.test(choice[key]) ? choice[key] : "";
  }
  mostRows = ROWS;
}

function hashOf(chosen) {
  const given = new URLSearchParams(Object.entries(chosen).filter(([, value]) => value));
  return `#${given}`;
}

function choose(changes) {
  Object.assign(choice, changes);
  history.replaceState(null, "", hashOf(choice));
  mostRows = ROWS;
  draw();
  // Whoever has scrolled down begins at the head of what was chosen.
  scrollBy(0, Math.min(byId("list").getBoundingClientRect().top, 0));
}

// Whether an item has the chosen partner, name and day, in any state. Its days are that of its stamp, and those of its changes.
function isChosen() {
  const { partner, since, until } = choice;
  const name = choice.name.trim().toLowerCase();
  const isOfDay = (day) => day !== "" && day >= since && (!until || day <= until);
  const isNamed = ({ file, number }) => soughtIn(file).includes(name) || number === name;
  return (item) => (!partner || item.partner === partner) && ((!since && !until) || daysOf(item).some(isOfDay)) && (!name || isNamed(item));
}

// The text that the name filter searches, by the file. It is made once, since a list may have many long ones.
const sought = new WeakMap();

function soughtIn(file) {
  if (!sought.has(file)) {
    sought.set(file, `${file.dataset}\n${file.description ?? ""}`.toLowerCase());
  }
  return sought.get(file);
}

// The day of an item's stamp as it is shown, which is empty if it is no date, and those of its changes.
function daysOf({ view, file, moment, changes }) {
  return [moment === null ? "" : stampText(view, file, moment).slice(0, 10), ...changes.map(({ at }) => localText(at).slice(0, 10))];
}

// The items in a state.
function inState(view, state) {
  return lists[view].filter((item) => item.state === state);
}

// What items are sorted by, for each column. States have the order of their table, in which a file passes through them.
const SORTED_BY = {
  no: ({ no }) => no,
  partner: ({ partner }) => partner,
  name: ({ file }) => file.dataset,
  when: ({ file }) => file.date + file.time,
  changed: ({ changes }) => changes.at(-1)?.at ?? 0,
  size: ({ file }) => file.units,
  file: ({ response }) => response.file,
  state: (item) => Object.keys(STATES[item.view]).indexOf(item.state),
};

// The items, which are newest first, in the chosen order. Where two are equal, the newer one stays before the other.
function sorted(items) {
  const sort = orderNow();
  if (sort === NEWEST) {
    return items;
  }
  const [column, sign] = sort.startsWith("-") ? [sort.slice(1), -1] : [sort, 1];
  const keyed = items.map((item) => [SORTED_BY[column](item), item]);
  keyed.sort(([one], [other]) => (one < other ? -sign : one > other ? sign : 0));
  return keyed.map(([, item]) => item);
}

// ---- drawing

const printed = new WeakMap();

// An element with a class and its children, which are texts or other elements. Texts become text nodes.
function make(kind, className, ...parts) {
  const element = document.createElement(kind);
  if (className) {
    element.className = className;
  }
  element.append(...parts.filter((part) => part !== null));
  return element;
}

function buttonOf(className, words, label) {
  const button = make("button", className, words);
  button.type = "button";
  if (label) {
    button.setAttribute("aria-label", label);
  }
  return button;
}

function linkOf(chosen, ...parts) {
  const link = make("a", "", ...parts);
  link.href = hashOf(chosen);
  return link;
}

// A partner's text in one line. Control characters, changes of the writing direction and long runs of combining marks are replaced, because
// they could make it look like another text.
function plain(text) {
  const line = text.replace(/\r\n?|[\n\u2028\u2029]/g, " ⏎ ").replace(/\t/g, " ");
  return line.replace(/[\p{Cc}\p{Bidi_Control}]|\p{M}{9,}/gu, "\ufffd");
}

// A partner's text, isolated from the writing direction around it.
function textOf(text, className) {
  return make("bdi", className, plain(text));
}

function shortened(text) {
  const characters = [...plain(text)];
  return characters.length <= LONGEST ? characters.join("") : `${characters.slice(0, LONGEST - 20).join("")}…`;
}

function titled(element, title) {
  element.title = title;
  return element;
}

function counted(count, one) {
  return `${numbers.format(count)} ${one}${count === 1 ? "" : "s"}`;
}

// How many records a file has, or how many blocks of 1,024 octets if it is unstructured or a text.
function rowsOf(file) {
  return counted(file.rows, file.format === "F" || file.format === "V" ? "record" : "block");
}

// A number of octets in three digits or so.
function sizeText(units) {
  if (units < 1000) {
    return `${units} B`;
  }
  const [size, unit] = units < 999_500 ? [1000, "KB"] : [1_000_000, "MB"];
  const hasTenths = unit === "MB" || units < 9_950;
  return `${(units / size).toFixed(hasTenths ? 1 : 0)} ${unit}`;
}

function exactSize(file) {
  const form = Object.hasOwn(FORMATS, file.format) ? FORMATS[file.format] : plain(file.format);
  const rows = file.format === "F" || file.format === "V" ? rowsOf(file) : "";
  return [counted(file.units, "byte"), rows, form].filter(Boolean).join(", ");
}

// Why a file was refused or returned, or how a session ended.
function reasonOf({ state, file, response, told }) {
  if (told) {
    return shortened(told);
  }
  if (response?.kind === "NERP" && state !== "delivered") {
    return reasonText(response.reason, NEGATIVE_REASONS);
  }
  return file.state === "refused" ? reasonText(file.reason, START_REASONS) : "";
}

function reasonText(number, reasons) {
  return Object.hasOwn(reasons, number) ? `${number} ${reasons[number]}` : `unknown reason ${plain(number)}`;
}

// A few words more on the state.
function detailOf(item) {
  const { state, file, age, later } = item;
  if (state.endsWith("_again")) {
    return `by ${later}`;
  }
  if (state === "handed_late") {
    return `by ${spanOf(age - LATE_AFTER.handed)}`;
  }
  if (state === "delivered" && file.state === "refused") {
    return `EERP came, after ${reasonOf(item)}`;
  }
  const part = state.startsWith("partly") ? `${Math.floor((100 * file.mark) / file.rows)} %` : "";
  const old = state.endsWith("_late") && age !== null ? `${spanOf(age)} old` : "";
  return [part, old].filter(Boolean).join(", ") || reasonOf(item);
}

function needsSomebody(item) {
  return Boolean(stateOf(item).sums);
}

// The command that takes a file and then releases it. It has no text of a partner, since a shell reads it.
function commandFor({ state, no }) {
  if (!state.startsWith("release") || !Number.isSafeInteger(no)) {
    return null;
  }
  const [database, book] = [shellWord(paths.database), shellWord(paths.book)];
  const fetched = `${paths.program} fetch --db ${database} ${no} /tmp/oftp_file_${no}`;
  return `${fetched} && ${paths.program} release --db ${database} --book ${book} ${no}`;
}

function shellWord(text) {
  return /^[\w@%+=:,./~-]+$/.test(text) ? text : `'${text.replaceAll("'", "'\\''")}'`;
}

// What somebody has to do about an item, as sentences.
function dutyOf(item) {
  const { partner, response } = item;
  const note = response?.note ? make("bdi", "note", `“${shortened(response.note)}”`) : null;
  const creator = response?.creator && response.creator !== partner ? make("span", "", "Created by ", textOf(response.creator, ""), ". ") : null;
  const command = commandFor(item);
  return make(
    "p", "duty", note, note ? " " : null, creator, make("span", "hint", stateOf(item).hint),
    ...(command ? [" ", make("code", "", command), " ", buttonOf("copy", "Copy", `Copy the command for ${item.no}`)] : []),
  );
}

// All that is known of an item, as pairs of a name and a text.
function factsOf(item) {
  const { file, response, state } = item;
  if (item.facts) {
    return item.facts.filter(([, text]) => text);
  }
  const part = state.startsWith("partly") ? `${numbers.format(file.mark)} of ${rowsOf(file)}` : "";
  return [
    ["Name", file.dataset], ["Description", file.description], ["From", file.originator ?? file.from], ["To", file.destination],
    ["Stamp", stampFact(item)], ["Size", file.units === undefined ? "" : exactSize(file)], ["Acknowledged", part],
    ["Reason", reasonOf(item)], ["Text", response?.note], ["Created by", response?.creator],
    ...item.changes.map((event) => [localText(event.at), wordsOf(event)]),
  ].filter(([, text]) => text);
}

function detailsOf(item) {
  return make("dl", "", ...factsOf(item).flatMap(([name, text]) => [make("dt", "", name), make("dd", "", textOf(text, ""))]));
}

function openerOf(item) {
  const isOpen = opened.has(keyOf(item));
  const button = buttonOf("open", isOpen ? "▾" : "▸", `Details of ${item.number}`);
  button.setAttribute("aria-expanded", isOpen);
  return button;
}

// An item's number. On a card there is no heading above it.
function numberOf({ view, number }) {
  const shown = make("span", "number", number);
  shown.dataset.head = VIEWS[view].columns.no;
  return shown;
}

// When an item changed last. Its title has all changes.
function changeOf({ changes }) {
  const shown = make("bdi", "", changes.length ? shortText(changes.at(-1).at) : "–");
  shown.dataset.head = CHANGED.changed;
  const all = changes.map((event) => `${localText(event.at)} ${wordsOf(event)}`);
  return titled(shown, all.length ? all.map(plain).join("\n") : "No event tells it");
}

// The content of each column in an item's row.
const CELLS = {
  no: (item) => [openerOf(item), numberOf(item)],
  partner: ({ partner }) => [textOf(partner, "few")],
  name: ({ file }) => [make("div", "", textOf(file.dataset, "few"), file.description ? textOf(file.description, "about cut") : null)],
  when: (item) => [titled(textOf(stampText(item.view, item.file, item.moment), ""), plain(stampFact(item)))],
  changed: (item) => [changeOf(item)],
  size: ({ file }) => [titled(make("span", "", sizeText(file.units)), exactSize(file))],
  file: ({ response }) => [response.file ? `File ${response.file}` : "None here"],
  state: (item) => {
    const detail = detailOf(item);
    return [make("div", "", make("span", "words", plain(stateOf(item).words)), detail ? make("span", "detail cut", detail) : null)];
  },
};

function rowOf(item) {
  const row = make("tr", "", ...Object.keys(columnsOf(item.view)).map((column) => {
    const cell = make(column === "name" ? "th" : "td", column, ...CELLS[column](item));
    cell.setAttribute("role", column === "name" ? "rowheader" : "cell");
    return cell;
  }));
  row.setAttribute("role", "row");
  return row;
}

// The row below an item's own: what to do, and the details if they are open. Most items have none.
function moreOf(item) {
  const parts = [needsSomebody(item) ? dutyOf(item) : null, opened.has(keyOf(item)) ? detailsOf(item) : null];
  if (!parts.some(Boolean)) {
    return null;
  }
  const cell = make("td", "", ...parts);
  cell.colSpan = Object.keys(columnsOf(item.view)).length;
  cell.setAttribute("role", "cell");
  const row = make("tr", "more", cell);
  row.setAttribute("role", "row");
  return row;
}

function fillBody(body, item) {
  const more = moreOf(item);
  body.className = `${stateOf(item).look}${more ? " has_more" : ""}`;
  body.replaceChildren(...[rowOf(item), more].filter(Boolean));
}

// All that an item's rows are made of.
function printOf(item) {
  const isOpen = opened.has(keyOf(item));
  const columns = Object.keys(columnsOf(item.view)).map((column) => (column === "changed" ? changeOf(item).textContent : column));
  return JSON.stringify([
    item.state, item.partner, item.file, item.response, detailOf(item), commandFor(item), columns, item.changes.length, isOpen && factsOf(item),
  ]);
}

// Draws the rows of the items, those of each in a body of its own. A body whose content is unchanged is kept, so nothing flickers.
function drawRows(table, items) {
  const old = new Map([...table.tBodies].map((body) => [body.dataset.no, body]));
  const shown = new Set(items.map((item) => String(item.no)));
  for (const [no, body] of old) {
    if (!shown.has(no)) {
      body.remove();
    }
  }
  let place = table.tBodies[0] ?? null;
  for (const item of items) {
    const body = old.get(String(item.no)) ?? newBody(item);
    const print = printOf(item);
    if (printed.get(body) !== print) {
      fillBody(body, item);
      printed.set(body, print);
    }
    if (body === place) {
      place = place.nextElementSibling;
    } else {
      table.insertBefore(body, place);
    }
  }
}

// Draws, and keeps the keyboard at the button of the item where it is, also if the rows of that item are made anew or move.
function keepFocus(table, change) {
  const used = document.activeElement;
  const body = table.contains(used) ? used.closest("tbody") : null;
  change();
  if (body?.isConnected && !body.contains(document.activeElement)) {
    body.querySelector(`.${used.className}`)?.focus({ preventScroll: true });
  }
}

function newBody(item) {
  const body = make("tbody");
  body.dataset.no = item.no;
  body.setAttribute("role", "rowgroup");
  return body;
}

function drawHead(table) {
  const columns = Object.entries(columnsOf(choice.view));
  const [sort, isOther] = [orderNow(), table.dataset.view !== choice.view || table.tHead.firstChild?.children.length !== columns.length];
  if (!isOther && table.dataset.sort === sort) {
    return;
  }
  const used = table.tHead.contains(document.activeElement) ? document.activeElement.dataset.column : null;
  const view = VIEWS[choice.view];
  const row = make("tr", "", ...columns.map(([column, head]) => headOf(column, head, sort)));
  row.setAttribute("role", "row");
  table.className = `of_${choice.view}${Object.hasOwn(columnsOf(choice.view), "changed") ? " has_changes" : ""}`;
  table.caption.textContent = view.caption;
  table.tHead.replaceChildren(row);
  table.tHead.querySelector(`[data-column="${used}"]`)?.focus({ preventScroll: true });
  Object.assign(table.dataset, { view: choice.view, sort });
  if (isOther) {
    [...table.tBodies].forEach((body) => body.remove());
  }
}

function headOf(column, head, sort) {
  const isDown = sort === `-${column}`;
  const isSorted = isDown || sort === column;
  const button = buttonOf("", isSorted ? `${head} ${isDown ? "↓" : "↑"}` : head);
  button.dataset.column = column;
  const cell = make("th", column, button);
  cell.scope = "col";
  cell.setAttribute("role", "columnheader");
  cell.setAttribute("aria-label", head);
  if (isSorted) {
    cell.setAttribute("aria-sort", isDown ? "descending" : "ascending");
  }
  return cell;
}

// The files that need somebody: for each such state their number, as a link to them.
function drawTodo() {
  const tiles = [];
  let all = 0;
  for (const view of ["in", "out", "partners"]) {
    for (const state of Object.keys(STATES[view]).filter((it) => STATES[view][it].sums)) {
      const found = inState(view, state);
      all += found.length;
      if (found.length) {
        tiles.push(make("li", "", tileOf(view, state, found)));
      }
    }
  }
  replaceIfOther(byId("todo"), tiles);
  setText(byId("idle"), isAllLookedAt() ? NOTHING : IDLE);
  byId("idle").hidden = all > 0;
  const title = `${all ? `(${all}) ` : ""}OFTP2 station ${byId("code").textContent}`.trim();
  if (updatedAt && title !== document.title) {
    say(all ? `To do: ${toDoText(all)}.` : byId("idle").textContent);
  }
  document.title = title;
}

// How many files and partners need somebody.
function toDoText(all) {
  const count = lists.partners.filter(needsSomebody).length;
  return [[all - count, "file"], [count, "partner"]].filter(([it]) => it).map(([it, noun]) => counted(it, noun)).join(", ");
}

// What is said where nobody is needed, and where the page has looked at all that could need somebody.
const IDLE = "No file needs anybody, by its state and its age.";
const NOTHING = "Nothing to do: no file, no response and no partner needs anybody.";

function isAllLookedAt() {
  return standing !== null && events !== null && !undatedItems().length;
}

// The items that would be late at some age, and of which nothing tells any.
function undatedItems() {
  const isOfAge = ({ state }) => Object.hasOwn(LATE_AFTER, state) && (events !== null || !BY_EVENTS.includes(state));
  return ["in", "out"].flatMap((view) => lists[view].filter((item) => isOfAge(item) && item.age === null));
}

function tileOf(view, state, found) {
  const { look, sums, many } = STATES[view][state];
  const words = [(found.length > 1 && many) || sums, state.endsWith("_late") ? oldestOf(found) : commonReason(found)];
  const link = linkOf({ view, state }, make("strong", "", numbers.format(found.length)), ` ${words.filter(Boolean).join(", ")}`);
  link.className = look;
  return link;
}

function oldestOf(found) {
  const age = found.reduce((oldest, item) => Math.max(oldest, item.age ?? 0), 0);
  return age > 0 ? `oldest ${spanOf(age)}` : "";
}

// The reason of these files, if they have the same.
function commonReason(found) {
  const [reason, ...others] = new Set(found.map(reasonOf));
  return others.length ? "" : reason;
}

function drawRules() {
  const rules = [...new Set(Object.values(LATE_AFTER))].map((bound) => {
    const states = Object.keys(LATE_IF).filter((state) => LATE_AFTER[state] === bound && (events || !BY_EVENTS.includes(state)));
    const seen = states.includes("closing") ? ` (or ${spanOf(CLOSING_SEEN)} seen here)` : "";
    return `${states.map((state) => LATE_IF[state]).join(", ")} after ${spanOf(bound)}${seen}`;
  });
  const by = events ? "by its events, or where they don't tell by a file's stamp read as UTC" : "by a file's stamp read as UTC";
  setText(byId("rules"), `Late, ${by}: ${rules.join("; ")}.`);
}

// What "no file needs anybody" doesn't speak of.
function drawUnlooked() {
  const parts = [];
  const missing = [standing ? "" : "whether partners are reached", events ? "" : "for how long responses wait to be sent"].filter(Boolean);
  if (missing.length) {
    parts.push(`Not looked at: ${missing.join(", and ")}. The journal has how each session ended. `);
  }
  const undated = undatedItems();
  if (undated.length) {
    const links = undated.slice(0, NAMED).flatMap(({ view, no }) => [linkOf({ view, name: no }, `${VIEWS[view].title.toLowerCase()} ${no}`), ", "]);
    const rest = undated.length > NAMED ? ` and ${numbers.format(undated.length - NAMED)} more` : "";
    parts.push(`Not looked at, since ${events ? "neither events nor the stamp tell an" : "the stamp tells no"} age: `, ...links.slice(0, -1), `${rest}. `);
  }
  const again = [...new Set(Object.values(AGAIN))].flatMap((state) => {
    const count = inState("out", state).length;
    return count ? [linkOf({ view: "out", state }, `${numbers.format(count)} ${state.replace("_again", "")}`), ", "] : [];
  });
  if (again.length) {
    parts.push("Not counted, since a later file to the partner has their name: ", ...again.slice(0, -1), ".");
  }
  replaceIfOther(byId("unlooked"), parts);
}

function drawViews(isOfFilter) {
  replaceIfOther(byId("views"), Object.entries(VIEWS).filter(([view]) => isShown(view)).map(([view, { title }]) => {
    const count = lists[view].filter(isOfFilter).length;
    const link = linkOf({ ...choice, view, state: "" }, title, " ", make("span", "count", numbers.format(count)));
    if (view === choice.view) {
      link.setAttribute("aria-current", "page");
    }
    return make("li", "", link);
  }));
}

// Replaces the content of an element only if it differs, so that the keyboard focus isn't lost.
function replaceIfOther(element, parts) {
  const other = make(element.localName, element.className, ...parts);
  if (element.isEqualNode(Object.assign(other, { id: element.id }))) {
    return;
  }
  const at = [...element.querySelectorAll("a")].indexOf(document.activeElement);
  element.replaceChildren(...other.childNodes);
  element.querySelectorAll("a")[at]?.focus();
}

function drawFilter() {
  const shown = !choice.partner || partners.includes(choice.partner) ? partners : [choice.partner, ...partners];
  setOptions(byId("partner"), [["", "All partners"], ...shown.map((partner) => [partner, plain(partner)])], choice.partner);
  const states = Object.entries(STATES[choice.view]).map(([state, { words }]) => [state, words]);
  setOptions(byId("state"), [["", "All states"], ...states], choice.state);
  const orders = Object.entries(columnsOf(choice.view)).flatMap(([column, head]) => [[`-${column}`, `${head} ↓`], [column, `${head} ↑`]]);
  setOptions(byId("sort"), orders, orderNow());
  for (const key of ["name", "since", "until"]) {
    if (byId(key).value !== choice[key]) {
      byId(key).value = choice[key];
    }
  }
  const used = FILTERS.filter((key) => choice[key]).length;
  byId("clear").disabled = !used;
  setText(byId("fold"), `Filter and sort${used ? ` (${used})` : ""}`);
}

function setOptions(select, options, value) {
  if (select.dataset.options !== JSON.stringify(options)) {
    select.dataset.options = JSON.stringify(options);
    select.replaceChildren(...options.map(([key, words]) => new Option(words, key)));
  }
  select.value = value;
}

function draw() {
  const table = byId("list");
  const all = lists[choice.view];
  const isOfFilter = isChosen();
  const found = sorted(all.filter((item) => isOfFilter(item) && (!choice.state || item.state === choice.state)));
  drawViews(isOfFilter);
  drawFilter();
  drawHead(table);
  keepPlace(table, () => keepFocus(table, () => drawRows(table, found.slice(0, mostRows))));
  const { noun, none, caption, stamps } = VIEWS[choice.view];
  const part = found.length === all.length ? "" : `${numbers.format(found.length)} of `;
  setText(byId("heading"), caption);
  setText(byId("shown"), part + counted(all.length, noun));
  setText(byId("stamps"), stampsTold(stamps));
  setText(byId("none"), all.length ? "Nothing here fits the filter." : none);
  byId("none").hidden = found.length > 0;
  byId("next").hidden = found.length <= mostRows;
}

function stampsTold(stamps) {
  const zone = `in your zone, ${zoneText()}`;
  const told = {
    [OURS]: `Stamps are read as UTC, and shown ${zone}.`, [OWN_TIMES]: `Times are shown ${zone}.`,
    [SENDERS]: `Stamps are shown as the sender wrote them. They tell no zone.${events ? ` Changes are shown ${zone}.` : ""}`,
  };
  return told[stamps];
}

// Sets a text only if it differs, so that a screen reader doesn't read it again.
function setText(element, text) {
  if (element.textContent !== text) {
    element.textContent = text;
  }
}

// Tells something to who can't see it change.
function say(text) {
  byId("said").textContent = text;
}

// Draws, and keeps the item at the top of the window in its place.
function keepPlace(table, change) {
  const top = table.getBoundingClientRect().top < 0 ? [...table.tBodies].find((body) => body.getBoundingClientRect().bottom > 0) : null;
  const before = top?.getBoundingClientRect().top;
  change();
  if (top?.isConnected) {
    scrollBy(0, top.getBoundingClientRect().top - before);
  }
}

// ---- renewing

const answers = new Map();
let updatedAt = null;
let timer = null;
let isRenewing = false;

// What not every station tells, and how it is read.
const TOLD = { status: JSON.parse, events: eventsIn };

// The station's reply at a path, or null where it tells no such thing. A reply equal to the last one isn't parsed again.
async function ask(path) {
  const text = await textAt(path);
  if (answers.get(path)?.text !== text) {
    answers.set(path, { text, value: text === null ? null : (TOLD[path] ?? JSON.parse)(text) });
  }
  return answers.get(path)?.value ?? null;
}

async function textAt(path) {
  let reply;
  try {
    reply = await fetch(path, { cache: "no-store", credentials: "omit", redirect: "error", signal: AbortSignal.timeout(PATIENCE) });
    if (reply.ok) {
      return await reply.text();
    }
    if (reply.status === 404 && Object.hasOwn(TOLD, path)) {
      return null;
    }
  } catch (fault) {
    throw new Trouble(fault.name === "TimeoutError" ? `it didn't answer within ${PATIENCE / 1000} seconds` : "it can't be reached");
  }
  throw new Trouble(`it answered with error ${reply.status}`);
}

// Why the station gave no reply.
class Trouble extends Error {}

// The responses are asked for behind the files, so that they include the response of each file that has one, and the events last, so that they
// tell what the lists have. The page changes only if all replies came.
async function renew() {
  if (isRenewing) {
    return;
  }
  isRenewing = true;
  clearTimeout(timer);
  const begun = performance.now();
  const before = { standing, events };
  try {
    const told = [await ask("in"), await ask("out"), await ask("responses")];
    const [stands, happened] = [await ask("status"), await ask("events")];
    standing = stands;
    takeEvents(happened);
    takeLists(...told);
    byId("main").hidden = false;
    byId("trouble").hidden = true;
    if (!updatedAt || !isShown(choice.view)) {
      readChoice();
    }
    drawRules();
    drawTodo();
    drawUnlooked();
    draw();
    updatedAt = new Date();
    byId("updated").textContent = `Updated ${clockOf(updatedAt)}, ${zoneText()}`;
  } catch (fault) {
    // What is shown stays, and so does what it was made of.
    standing = before.standing;
    takeEvents(before.events);
    tellTrouble(fault instanceof Trouble ? fault.message : "its answer isn't what it should be");
  }
  isRenewing = false;
  timer = setTimeout(() => document.hidden || renew(), Math.max(PAUSE, TIMES * (performance.now() - begun)));
}

function clockOf(moment) {
  return moment.toLocaleTimeString("en-GB");
}

function tellTrouble(why) {
  const what = updatedAt ? `What you see is of ${clockOf(updatedAt)}.` : "Nothing can be shown yet.";
  setText(byId("trouble"), `The station couldn't be asked: ${why}. ${what} The page tries again by itself.`);
  byId("trouble").hidden = false;
  byId("updated").textContent = updatedAt ? `Last updated ${clockOf(updatedAt)}, ${zoneText()}` : "";
}

// ---- the paths in commands, which the browser keeps

const paths = { ...PATHS };

function readPaths() {
  for (const key of Object.keys(PATHS)) {
    try {
      paths[key] = localStorage.getItem(`oftp_station ${key}`) || PATHS[key];
    } catch {
      // This browser keeps nothing.
    }
    byId(key).value = paths[key];
  }
}

function takePath(key, text) {
  paths[key] = text.trim() || PATHS[key];
  try {
    localStorage.setItem(`oftp_station ${key}`, text.trim());
  } catch {
    // It counts until the page is closed.
  }
  draw();
}

// ---- what a person does

for (const key of [...FILTERS, "sort"]) {
  byId(key).addEventListener("input", (event) => choose({ [key]: event.target.value }));
}
for (const key of Object.keys(PATHS)) {
  byId(key).addEventListener("input", (event) => takePath(key, event.target.value));
}
byId("filter").addEventListener("submit", (event) => event.preventDefault());
byId("filter").addEventListener("reset", (event) => {
  event.preventDefault();
  choose(Object.fromEntries(FILTERS.map((key) => [key, ""])));
  byId("name").focus();
});
byId("fold").addEventListener("click", () => {
  const isOpen = byId("filter").classList.toggle("unfolded");
  byId("fold").setAttribute("aria-expanded", isOpen);
});
byId("skip").addEventListener("click", (event) => {
  // The fragment of the address is the filter's.
  event.preventDefault();
  byId("list").focus();
});

function sortBy(column) {
  const [up, down] = [column, `-${column}`];
  const now = orderNow();
  const [first, second] = FROM_GREATEST.includes(column) ? [down, up] : [up, down];
  choose({ sort: now === first ? second : first });
}

async function copy(button) {
  const command = button.parentElement.querySelector("code");
  try {
    await navigator.clipboard.writeText(command.textContent);
    tellCopied(button, "Copied");
  } catch {
    // A browser gives no clipboard to a page that came by plain HTTP from another machine.
    getSelection().selectAllChildren(command);
    tellCopied(button, "Press Ctrl+C");
  }
}

function tellCopied(button, words) {
  say(`${words}.`);
  button.textContent = words;
  setTimeout(() => setText(button, "Copy"), 2000);
}

function toggle(no) {
  const key = keyOf({ view: choice.view, no });
  if (!opened.delete(key)) {
    opened.add(key);
  }
  draw();
}

// A click on a row opens its details, unless it marks a text in it.
byId("list").addEventListener("click", ({ target, detail }) => {
  const [head, copied, body] = [target.closest("thead button"), target.closest(".copy"), target.closest("tbody")];
  if (head) {
    sortBy(head.dataset.column);
  } else if (copied) {
    copy(copied);
  } else if (target.closest(".open") || (body && detail < 2 && !target.closest(".more") && getSelection().isCollapsed)) {
    toggle(body.dataset.no);
  }
});

function showMore() {
  mostRows += ROWS;
  draw();
}

byId("next").addEventListener("click", showMore);
new IntersectionObserver(([seen]) => seen.isIntersecting && showMore(), { rootMargin: "600px" }).observe(byId("next"));
addEventListener("hashchange", () => {
  readChoice();
  draw();
});
document.addEventListener("visibilitychange", () => document.hidden || renew());
readPaths();
renew();
</script>
</body>
</html>
"###;
