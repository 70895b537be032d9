//! The script of pages: it renews them, and leaves what the reader does as it is.

/// It stands in each page as it is, and has neither `<` nor `&`.
pub(crate) const SCRIPT: &str = "\"use strict\";
(() => {
const EVERY = 2000;
let fresh = Date.now(), busy = false, failed = false;

// How old the page is, in red where it couldn't be renewed
const old = document.createElement(\"p\"), words = document.createElement(\"span\"), age = document.createElement(\"span\");
words.setAttribute(\"role\", \"alert\");
old.append(words, age);
const show = () => {
  const seconds = Math.round((Date.now() - fresh) / 1000);
  if (failed || seconds > 9) {
    if (!old.isConnected) document.body.prepend(old);
    if (!words.textContent) words.textContent = \"This page can't be renewed. \";
    age.textContent = \"It is \" + (seconds > 119 ? Math.floor(seconds / 60) + \" min\" : seconds + \" s\") + \" old.\";
  } else {
    words.textContent = \"\";
    old.remove();
  }
};

// A row is the one with this first link, an option the one with this value, others go by their id
const key = node => node.nodeName + (node.id || (node.nodeName === \"OPTION\" ? node.value
  : node.nodeName === \"TR\" ? node.querySelector(\"a\")?.getAttribute(\"href\") : \"\") || \"\");

// Makes an element like another one, and leaves in place what is in both: focus, selection, scrolling and what was typed stay
const like = (was, now) => {
  if (was.isEqualNode(now)) return;
  for (const name of now.getAttributeNames())
    if (was.getAttribute(name) !== now.getAttribute(name)) if (name !== \"open\") was.setAttribute(name, now.getAttribute(name));
  for (const name of was.getAttributeNames())
    if (!now.hasAttribute(name)) if (name !== \"open\") was.removeAttribute(name);
  const kept = new Map();
  for (const node of was.children) kept.set(key(node), [...kept.get(key(node)) ?? [], node]);
  const pairs = [...now.childNodes].map(node => [node, node.nodeType === 1 ? kept.get(key(node))?.shift() : null]);
  for (const nodes of kept.values()) for (const node of nodes) node.remove();
  let at = was.firstChild;
  const drop = () => {
    const gone = at;
    at = at.nextSibling;
    gone.remove();
  };
  for (const [node, same] of pairs) {
    if (node.nodeType === 1) while (at?.nodeType === 3) drop();
    if (same) {
      if (same !== at) if (same === at?.nextElementSibling) {
        const later = at;
        at = at.nextSibling;
        was.append(later);
        while (at !== same) drop();
      } else {
        was.insertBefore(same, at);
        at = same;
      }
      like(same, node);
      at = at.nextSibling;
    } else if (node.nodeType === 3 ? at?.nodeType === 3 : false) {
      if (at.data !== node.data) at.data = node.data;
      at = at.nextSibling;
    } else was.insertBefore(document.importNode(node, true), at);
  }
  while (at) drop();
};

const renew = page => {
  const focus = document.activeElement, s = getSelection(), chosen = !s.isCollapsed;
  const ends = [s.anchorNode, s.anchorOffset, s.focusNode, s.focusOffset];
  like(document.querySelector(\"main\"), page.querySelector(\"main\"));
  document.title = page.title;
  if (document.activeElement !== focus) focus.focus({preventScroll: true});
  if (chosen) if ([s.anchorNode, s.anchorOffset, s.focusNode, s.focusOffset].some((end, i) => end !== ends[i]))
    if (ends[0].isConnected) if (ends[2].isConnected) {
      const within = (node, offset) => Math.min(offset, node.length ?? node.childNodes.length);
      s.setBaseAndExtent(ends[0], within(ends[0], ends[1]), ends[2], within(ends[2], ends[3]));
    }
};

const tick = async () => {
  if (document.hidden) return;
  show();
  if (busy) return;
  busy = true;
  const asked = Date.now();
  try {
    const answer = await fetch(location.href, {cache: \"no-store\", redirect: \"error\", signal: AbortSignal.timeout(10 * EVERY)});
    const page = new DOMParser().parseFromString(await answer.text(), \"text/html\");
    if (!answer.ok) if (answer.status !== 404) throw answer.status;
    if (!page.querySelector(\"main ~ script\")) throw \"cut off\";
    renew(page);
    fresh = asked;
    failed = false;
  } catch {
    failed = true;
  }
  busy = false;
  show();
};
setInterval(tick, EVERY);
document.addEventListener(\"visibilitychange\", tick);
})();
";
